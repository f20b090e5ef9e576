//! The code words of instructions (task_isa).

use task_isa::{Instr, Reg, decode, encode};

// add r2 r2 r3
fn sum() -> Instr {
    Instr::Add {
        a: Reg::new(2),
        b: Reg::new(2),
        c: Reg::new(3),
    }
}

// li r1 7
fn seven() -> Instr {
    Instr::Li {
        a: Reg::new(1),
        i: 7,
    }
}

const SUM: u64 = 0x0000_0000_0003_2203;

// The word of the instruction that has this word.
fn reread(word: u64) -> Option<u64> {
    match decode(word) {
        Some(instr) => Some(encode(instr)),
        None => None,
    }
}

#[test]
fn words_of_two_instructions(rt: HostRuntime) {
    assert_eq!(rt; encode(seven()), 0x0000_0007_0000_0101);
    assert_eq!(rt; encode(sum()), SUM);
    // No two instructions have one word, so this is the sum.
    assert_eq!(rt; reread(SUM), Some(SUM));
}

#[test]
fn no_instruction_has_these_words(rt: HostRuntime) {
    for word in [0, 0x0000_0007_0010_0101, 30] {
        assert!(rt; decode(word).is_none());
    }
}
