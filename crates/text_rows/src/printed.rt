//! The canonical text of a program (program_text).

use crate::fixtures::{joined, read};
use ink_base::JobAnswer;
use prog_check::{Accepted, check};
use program_text::print_program;
use std::alloc::Global;
use std::test::Fail;
use task_isa::{Lines, Program};

const LOOSE: &str = "[program] # the same program
  thread a priority 01 queue 2 state 1 log 8 expires 5
thread b\tpriority 2 queue 32 state 0 log 4096
timer t thread a due 1 period 0
pipe p 064 from a to b
timer u thread a off

source b
task x thread a limit 9
unused:
up:
jz r1 down
send p r1 r2
down:
again:
arm t r3 r4
stop u
li r15 4294967295
jnz r1 again
divu r1 r2 r3
next z
end
task y thread b limit 1
done
end
task z thread a limit 10
jmp up
up:
jmp up # not that of x
end
[sensors]
";

const PRINTED: &str = "[program]
thread a priority 1 queue 2 state 1 log 8 expires 5
thread b priority 2 queue 32 state 0 log 4096
source b
pipe p 64 from a to b
timer t thread a due 1 period 0
timer u thread a off
task x thread a limit 9
jz r1 L2
send p r1 r2
L2:
arm t r3 r4
stop u
li r15 4294967295
jnz r1 L2
divu r1 r2 r3
next z
end
task y thread b limit 1
done
end
task z thread a limit 10
jmp L1
L1:
jmp L1
end
";

fn accepted(alloc: Global, text: &str) -> Result<Accepted, JobAnswer> {
    let (program, lines, _) = read(alloc, text)?;
    check(program, &lines)
}

// The canonical text of the program of a text.
fn printed(alloc: Global, text: &str) -> Result<Vec<u8>, JobAnswer> {
    let accepted = accepted(alloc, text)?;
    Ok(print_program(alloc, &accepted)?)
}

fn is_printed_as(alloc: Global, text: &str, wanted: &str) -> Result<bool, JobAnswer> {
    let bytes = printed(alloc, text)?;
    Ok(bytes.as_slice() == wanted.as_bytes())
}

// Whether the canonical text with the next header behind it is printed as it is.
fn is_canonical(alloc: Global, text: &str) -> Result<bool, JobAnswer> {
    let whole = joined(alloc, text, "[sensors]\n")?;
    is_printed_as(alloc, whole.as_str(), text)
}

#[test]
fn a_canonical_text_is_printed_as_it_is(rt: HostRuntime) -> Result<(), Fail> {
    assert!(rt; is_canonical(rt.alloc(), PRINTED)?);
    Ok(())
}

#[test]
fn another_text_of_the_program_is_printed_canonically(rt: HostRuntime) -> Result<(), Fail> {
    assert!(rt; is_printed_as(rt.alloc(), LOOSE, PRINTED)?);
    Ok(())
}

// Each form of a line, and each instruction, as it is printed.
const EVERY: &str = "[program]
thread a priority 255 queue 32 state 256 log 4096 expires 2147483647
thread b priority 0 queue 2 state 0 log 1
source b
source a
pipe p 1 from a to b
pipe q 64 from b to a
timer t thread a off
timer u thread a due 0 period 2147483647
task x thread a limit 4096
L0:
li r0 0
mov r1 r2
add r3 r4 r5
sub r6 r7 r8
mul r9 r10 r11
and r12 r13 r14
or r15 r0 r1
xor r2 r3 r4
shl r5 r6 r7
shr r8 r9 r10
L10:
divu r11 r12 r13
remu r14 r15 r0
ltu r1 r2 r3
eq r4 r5 r6
jz r7 L10
jnz r8 L28
ev r9
kind r10
num r11
now r12
ld r13 r14
st r15 r0
out r1
send p r2 r3
arm t r4 r5
stop u
jmp L0
next z
L28:
done
end
task y thread b limit 1
send q r6 r7
done
end
task z thread a limit 2
next x
end
";

fn read_with_header(alloc: Global, text: &str) -> Result<(Program, Lines, u32), JobAnswer> {
    let whole = joined(alloc, text, "[sensors]\n")?;
    read(alloc, whole.as_str())
}

// How many words stand before the next header, and whether threads and tasks stand in their lines.
fn has_its_lines(alloc: Global, text: &str) -> Result<(u32, bool), JobAnswer> {
    let (_, lines, next) = read_with_header(alloc, text)?;
    let threads = lines.threads.as_slice() == [2, 3].as_slice();
    let tasks = lines.tasks.as_slice() == [10, 44, 48].as_slice();
    Ok((next, threads && tasks))
}

#[test]
fn every_form_is_printed_and_read_back(rt: HostRuntime) -> Result<(), Fail> {
    assert_eq!(rt; has_its_lines(rt.alloc(), EVERY)?, (176, true));
    assert!(rt; is_canonical(rt.alloc(), EVERY)?);
    Ok(())
}
