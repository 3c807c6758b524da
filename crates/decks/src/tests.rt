use crate::{DeckError, DeckFault, count_equal, octal_digits, read_deck, store};
use memory::PlainCore;
use std::test::Fail;
use words::Refusal;

#[test]
fn reads_words(rt: HostRuntime) -> Result<(), Fail> {
    let text = b"1 02 # two words\r\n\t777777777777\n# none\n0#17\n17";
    let deck = read_deck(rt.alloc(), text)?;
    assert_eq!(rt; deck.as_slice(), [1, 2, 0o777777777777, 0, 0o17].as_slice());
    Ok(())
}

#[test]
fn names_the_line(rt: HostRuntime) -> Result<(), Fail> {
    let heap = rt.alloc();
    let letter = DeckError {
        line: 3,
        fault: DeckFault::NotOctal,
    };
    assert_eq!(rt; read_deck(heap, b"1\n# 8\n28"), Err(letter));
    assert_eq!(rt;
        letter.to_string(heap)?.as_str(),
        "line 3: not an octal digit"
    );
    let long = DeckError {
        line: 2,
        fault: DeckFault::TooManyDigits,
    };
    assert_eq!(rt; read_deck(heap, b"\n1234567012345"), Err(long));
    Ok(())
}

#[test]
fn counts_the_words(rt: HostRuntime) -> Result<(), Fail> {
    let heap = rt.alloc();
    let mut text = Vec::new(heap);
    for _ in 0..262145 {
        text.extend_from_slice(b"1\n")?;
    }
    let many = DeckError {
        line: 262145,
        fault: DeckFault::TooManyWords,
    };
    assert_eq!(rt; read_deck(heap, text.as_slice()), Err(many));
    Ok(())
}

#[test]
fn writes_octal(rt: HostRuntime) {
    assert_eq!(rt; octal_digits(0o12345670), *b"000012345670");
}

#[test]
fn stores_words(rt: HostRuntime) {
    let mut cells = [0; 4];
    let mut core = PlainCore::new(&mut cells);
    assert_eq!(rt; store(&mut core, &[7, 8, 9]), Ok(()));
    assert_eq!(rt; count_equal(&core, &[7, 0, 9, 0, 0]), 3);
    assert_eq!(rt; store(&mut core, &[0; 5]), Err(Refusal::AddressOutsideCore));
    assert_eq!(rt; store(&mut core, &[1 << 36; 5]), Err(Refusal::NotAWord));
}
