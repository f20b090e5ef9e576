//! Prints the declarations of a program.

ghost use Rattle.std.specs.Prelude.{◌≡◌, ◌++◌, flat_map, OnOk};
ghost use Rattle.std.specs.List.{All};
ghost use Rattle.program_text.specs.Print.{thread_name, expires_text, sizes_text, thread_text, source_text, ends_text, pipe_text, start_text, timer_text};
ghost use Rattle.program_text.specs.Typed.{IsNamed};

use ink_base::{NoMemory, ThreadId};
use ink_text::{put_count, put_name};
use task_isa::{PipeDef, Program, ThreadDef, TimerDef};

/// The name of a thread, or nothing where there is none.
pub fn thread_name(program: &Program, thread: ThreadId) -> &[u8]
    ensures { result.now ≡ thread_name program.now thread }
{
    match program.threads.as_slice().get(thread.0 as usize) {
        Some(def) => def.name.as_bytes(),
        None => &[],
    }
}

fn put_expires(out: &mut Vec<u8>, expires: Option<u32>) -> Result<(), NoMemory>
    ensures { OnOk result (out.new.items ≡ out.old.items ++ expires_text expires) }
{
    match expires {
        None => Ok(()),
        Some(ticks) => put_count(out, b" expires ", u64::from(ticks)),
    }
}

fn put_sizes(out: &mut Vec<u8>, thread: &ThreadDef) -> Result<(), NoMemory>
    ensures { OnOk result (out.new.items ≡ out.old.items ++ sizes_text thread.now) }
{
    put_count(out, b" queue ", u64::from(thread.queue))?;
    put_count(out, b" state ", u64::from(thread.state))?;
    put_count(out, b" log ", u64::from(thread.log))
}

fn put_thread(out: &mut Vec<u8>, thread: &ThreadDef) -> Result<(), NoMemory>
    ensures text { OnOk result (out.new.items ≡ out.old.items ++ thread_text thread.now) }
    ensures named { OnOk result (IsNamed thread.now.name) }
{
    put_name(out, b"thread ", thread.name.as_bytes())?;
    put_count(out, b" priority ", u64::from(thread.priority))?;
    put_sizes(out, thread)?;
    put_expires(out, thread.expires)?;
    out.push(b'\n')?;
    Ok(())
}

/// Appends a line for each thread.
pub fn put_threads(out: &mut Vec<u8>, threads: &[ThreadDef]) -> Result<(), NoMemory>
    ensures text { OnOk result (out.new.items ≡ out.old.items ++ flat_map thread_text threads.now) }
    ensures named { OnOk result (All (λ t. IsNamed t.name) threads.now) }
{
    for thread in threads {
        put_thread(out, thread)?;
    }
    Ok(())
}

fn put_source(out: &mut Vec<u8>, program: &Program, source: ThreadId) -> Result<(), NoMemory>
    ensures { OnOk result (out.new.items ≡ out.old.items ++ source_text program.now source) }
{
    put_name(out, b"source ", thread_name(program, source))?;
    out.push(b'\n')?;
    Ok(())
}

/// Appends a line for each source.
pub fn put_sources(
    out: &mut Vec<u8>,
    program: &Program,
    sources: &[ThreadId],
) -> Result<(), NoMemory>
    ensures { OnOk result (out.new.items ≡ out.old.items ++ flat_map (source_text program.now) sources.now) }
{
    for source in sources {
        put_source(out, program, *source)?;
    }
    Ok(())
}

fn put_ends(out: &mut Vec<u8>, program: &Program, pipe: &PipeDef) -> Result<(), NoMemory>
    ensures { OnOk result (out.new.items ≡ out.old.items ++ ends_text program.now pipe.now) }
{
    put_name(out, b" from ", thread_name(program, pipe.writer))?;
    put_name(out, b" to ", thread_name(program, pipe.reader))
}

fn put_pipe(out: &mut Vec<u8>, program: &Program, pipe: &PipeDef) -> Result<(), NoMemory>
    ensures text { OnOk result (out.new.items ≡ out.old.items ++ pipe_text program.now pipe.now) }
    ensures named { OnOk result (IsNamed pipe.now.name) }
{
    put_name(out, b"pipe ", pipe.name.as_bytes())?;
    put_count(out, b" ", u64::from(pipe.places))?;
    put_ends(out, program, pipe)?;
    out.push(b'\n')?;
    Ok(())
}

/// Appends a line for each pipe.
pub fn put_pipes(out: &mut Vec<u8>, program: &Program, pipes: &[PipeDef]) -> Result<(), NoMemory>
    ensures text { OnOk result (out.new.items ≡ out.old.items ++ flat_map (pipe_text program.now) pipes.now) }
    ensures named { OnOk result (All (λ p. IsNamed p.name) pipes.now) }
{
    for pipe in pipes {
        put_pipe(out, program, pipe)?;
    }
    Ok(())
}

fn put_start(out: &mut Vec<u8>, due: Option<u32>, period: u32) -> Result<(), NoMemory>
    ensures { OnOk result (out.new.items ≡ out.old.items ++ start_text due period) }
{
    match due {
        None => {
            out.extend_from_slice(b" off")?;
            Ok(())
        }
        Some(due) => {
            put_count(out, b" due ", u64::from(due))?;
            put_count(out, b" period ", u64::from(period))
        }
    }
}

fn put_timer(out: &mut Vec<u8>, program: &Program, timer: &TimerDef) -> Result<(), NoMemory>
    ensures text { OnOk result (out.new.items ≡ out.old.items ++ timer_text program.now timer.now) }
    ensures named { OnOk result (IsNamed timer.now.name) }
{
    put_name(out, b"timer ", timer.name.as_bytes())?;
    put_name(out, b" thread ", thread_name(program, timer.thread))?;
    put_start(out, timer.due, timer.period)?;
    out.push(b'\n')?;
    Ok(())
}

/// Appends a line for each timer.
pub fn put_timers(out: &mut Vec<u8>, program: &Program, timers: &[TimerDef]) -> Result<(), NoMemory>
    ensures text { OnOk result (out.new.items ≡ out.old.items ++ flat_map (timer_text program.now) timers.now) }
    ensures named { OnOk result (All (λ t. IsNamed t.name) timers.now) }
{
    for timer in timers {
        put_timer(out, program, timer)?;
    }
    Ok(())
}
