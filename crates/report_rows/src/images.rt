//! The text of an image, and the words that a text says (ink_image).

ghost use Rattle.std.specs.Prelude.{◌≤◌, length};

use ink_base::limits::TEXT_BYTES;
use ink_base::split_tokens;
use ink_image::{WordsAnswer, read_words, write_image};
use std::alloc::Global;
use std::test::Fail;

// What a text says behind its first word.
fn said_behind(alloc: Global, text: &[u8]) -> Result<Vec<u64>, WordsAnswer>
    requires { length text.now ≤ TEXT_BYTES }
{
    match split_tokens(alloc, text) {
        Ok(tokens) => match tokens.list.as_slice() {
            [] => read_words(alloc, text, &[]),
            [_, rest @ ..] => read_words(alloc, text, rest),
        },
        Err(_) => Err(WordsAnswer::NoMemory),
    }
}

#[test]
fn nine_words(rt: HostRuntime) -> Result<(), Fail> {
    let words = [
        0x0123456789abcdef,
        1,
        2,
        3,
        4,
        5,
        6,
        7,
        18446744073709551615,
    ];
    let text = write_image(rt.alloc(), &words).ok().ok_or("memory")?;
    let lines =
        b"[image2]\n0123456789abcdef 0000000000000001 0000000000000002 0000000000000003 0000000000000004 0000000000000005 0000000000000006 0000000000000007\nffffffffffffffff\n";
    assert_eq!(rt; text.as_slice(), lines.as_slice());
    Ok(())
}

#[test]
fn upper_case_up_to_the_next_header(rt: HostRuntime) -> Result<(), Fail> {
    let text = b"[image2]\n\nABCDEFabcdef0123 0000000000000001\n[claim]\n12";
    let words = said_behind(rt.alloc(), text).ok().ok_or("words")?;
    assert_eq!(rt; words.as_slice(), [0xabcdefabcdef0123, 1].as_slice());
    Ok(())
}

#[test]
fn a_short_word(rt: HostRuntime) {
    let answer = said_behind(rt.alloc(), b"[image2]\n0000000000000001\n12 x\n").err();
    assert_eq!(rt; answer, Some(WordsAnswer::BadWord { line: 3 }));
}
