//! A journal that is replayed entry by entry.

ghost use Rattle.std.specs.Prelude.{◌≡◌, ◌<◌, length};
ghost use Rattle.never_cut.specs.State.{thread_of, pipe_of, timer_of, source_of};
ghost use Rattle.never_cut.specs.Replaying.{model_of};

use crate::kept_outputs::KeptOutputs;
use crate::model::Model;
use crate::pipe_model::PipeModel;
use crate::scan_model::ScanModel;
use crate::source_model::SourceModel;
use crate::thread_model::ThreadModel;
use crate::timer_model::TimerModel;
use sqlite_items::Items;

/// An open replay: the state of the never-cut kernel after the entries that were entered so far. It begins at a state, and the effect
/// of each entry that is legal is made in place. Contracts see the state by `model_of`.
#[derive(Drop)]
pub struct Replaying {
    pub(crate) threads: Vec<ThreadModel>,
    pub(crate) pipes: Vec<PipeModel>,
    pub(crate) timers: Vec<TimerModel>,
    pub(crate) sources: Vec<SourceModel>,
    pub(crate) clock: u64,
    pub(crate) outputs: KeptOutputs,
    pub(crate) commits: u64,
    pub(crate) scan: Option<ScanModel>,
}

impl Replaying {
    pub(crate) fn thread(&self, t: usize) -> &ThreadModel
        requires { t < length self.now.threads.items }
        ensures { result.now ≡ thread_of (model_of self.now) t }
    {
        &self.threads[t]
    }

    pub(crate) fn pipe(&self, q: usize) -> &PipeModel
        requires { q < length self.now.pipes.items }
        ensures { result.now ≡ pipe_of (model_of self.now) q }
    {
        &self.pipes[q]
    }

    pub(crate) fn timer(&self, j: usize) -> TimerModel
        ensures { result ≡ timer_of (model_of self.now) j }
    {
        let no_timer = TimerModel {
            due: None,
            period: 0,
        };
        self.timers.get(j).copied().unwrap_or(no_timer)
    }

    pub(crate) fn source(&self, i: usize) -> SourceModel
        ensures { result ≡ source_of (model_of self.now) i }
    {
        let no_source = SourceModel {
            next: 0,
            accepted: 0,
            refused: false,
        };
        self.sources.get(i).copied().unwrap_or(no_source)
    }

    /// The state after the entries so far.
    pub fn into_model(self) -> Model
        ensures { result ≡ model_of self }
    {
        let Replaying {
            threads,
            pipes,
            timers,
            sources,
            clock,
            outputs,
            commits,
            scan,
        } = self;
        let KeptOutputs { list, counts: _ } = outputs;
        Model {
            threads: Items::from_vec(threads),
            pipes: Items::from_vec(pipes),
            timers: Items::from_vec(timers),
            sources: Items::from_vec(sources),
            clock,
            outputs: Items::from_vec(list),
            commits,
            scan,
        }
    }
}
