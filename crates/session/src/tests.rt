// How a text grows, and what a line is, on small examples.
use super::line::{Line, Symbol, refusal_line, render};
use super::name::Name;
use super::text::Text;
use elf::refusal::Refusal;

// The symbol 65535 of object 7, of the name `f`.
fn symbol() -> Symbol {
    let mut bytes = [0; 255];
    bytes[0] = b'f';
    Symbol {
        object: 7,
        number: 65535,
        name: Name { bytes, len: 1 },
    }
}

#[test]
fn a_new_text_has_no_bytes_and_all_is_zero(rt: HostRuntime) {
    let text = Text::new();
    assert_eq!(rt; text.bytes(), [].as_slice());
    assert_eq!(rt; text.bytes.as_slice(), [0; 320].as_slice());
}

#[test]
fn a_text_grows_at_its_end(rt: HostRuntime) {
    let mut text = Text::new();
    text.push(b"lo");
    text.push(b"");
    text.push(b"ad");
    text.field(b"f");
    text.field(b"");
    text.number(0_u16);
    text.number(65535_u16);
    assert_eq!(rt; text.bytes(), b"load f  0 65535".as_slice());
}

#[test]
fn what_is_not_needed_stays_spare(rt: HostRuntime) {
    let mut text = Text {
        bytes: [b'.'; 320],
        len: 0,
    };
    text.push(b"ab");
    text.field(b"c");
    text.number(10_u16);
    assert_eq!(rt; text.bytes(), b"ab c 10".as_slice());
    assert_eq!(rt; &text.bytes[7..], [b'.'; 313].as_slice());
}

#[test]
fn a_text_has_room_for_320_bytes(rt: HostRuntime) {
    let mut text = Text::new();
    text.push(&[b'x'; 319]);
    text.push(b"y");
    assert_eq!(rt; text.bytes().len(), 320);
    assert_eq!(rt; text.bytes[319], b'y');
}

#[test]
fn a_line_has_its_word_and_its_fields(rt: HostRuntime) {
    let bind = render(&Line::Bind(symbol(), 1, 2));
    assert_eq!(rt; render(&Line::Load(3)).bytes(), b"load 3\n".as_slice());
    assert_eq!(rt; render(&Line::Init(10)).bytes(), b"init 10\n".as_slice());
    assert_eq!(rt; bind.bytes(), b"bind 7 65535 f 1 2\n".as_slice());
    assert_eq!(rt;
        render(&Line::Over(symbol(), 0, 9)).bytes(),
        b"over 7 65535 f 0 9\n".as_slice()
    );
    assert_eq!(rt;
        render(&Line::None(symbol())).bytes(),
        b"none 7 65535 f\n".as_slice()
    );
    assert_eq!(rt; &bind.bytes[19..], [0; 301].as_slice());
}

#[test]
fn a_refusal_tells_its_number_object_and_place(rt: HostRuntime) {
    let refused = refusal_line(&Refusal::Unbound {
        object: 2,
        symbol: 31,
    });
    assert_eq!(rt;
        refusal_line(&Refusal::PartCount).bytes(),
        b"refused 11 0 0\n".as_slice()
    );
    assert_eq!(rt; refused.bytes(), b"refused 17 2 31\n".as_slice());
    assert_eq!(rt; &refused.bytes[16..], [0; 304].as_slice());
}
