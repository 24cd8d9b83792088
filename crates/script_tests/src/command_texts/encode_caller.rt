//! The caller that encode's README shows.
use cmdcodec::{Opcode, Raw};
use encode::{EncodeFault, Field, FieldFault, encode_line};

#[test]
fn a_text_and_its_words(rt: HostRuntime) {
    let ste = Raw {
        lo: 0x0000_0005_0000_0003,
        hi: 1,
    };
    assert_eq!(rt; encode_line(b"CFGI_STE leaf=1 sid=0x5"), Ok(Some(ste)));
    assert_eq!(rt; encode_line(b"# a comment"), Ok(None));
    let fault = FieldFault::Missing(Field::Leaf);
    assert_eq!(rt;
        encode_line(b"CFGI_STE sid=5"),
        Err(EncodeFault::BadField(Opcode::CfgiSte, fault))
    );
}
