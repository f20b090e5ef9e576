//! The queues of a board and their sources: one access at a time, with cuts between any two.
#![tactic(auto)]

ghost use Rattle.std.specs.Prelude.{◌≡◌, ℕ, suc, ◌-◌, ◌<◌, ◌≤◌, List};
ghost use Rattle.std.specs.List.{range_with_len};
ghost use Rattle.source_laws.specs.Model.{Board, Model, Entry};
ghost use Rattle.source_laws.specs.Stands.{IsWithin, State, Stands};
ghost use Rattle.source_laws.specs.Rows.{entry, found};
ghost use Rattle.source_laws.specs.Steps.{IsFirst, IsStart, IsRun, SourceStep, MayAdd};
ghost use Rattle.source_laws.specs.Journals.{Leads, settled};

/// Whatever order of accesses of the sources, releases and cuts: after each of them the words of queues and sources stand for the
/// never-cut kernel's, and each entry that a source's access adds is legal; from the first image on, and from any words that stand.
/// The readings that legal entries settle are the next one and those after it, in order, up to the one that is next then.
pub fn words_stand()
    ensures first { (board : Board) (x : State) → IsWithin board → IsFirst board x → IsStart board x }
    ensures stands { (board : Board) (at : ℕ → State) → IsWithin board → IsRun board at → (n : ℕ) → Stands board (at n) }
    ensures legal { (board : Board) (at : ℕ → State) → IsWithin board → IsRun board at → (n i : ℕ) → i < board.shape.sources →
        SourceStep board i (at n) (at (suc n)) → MayAdd board (entry board i ((at n).row i) (found board (at n).word i ((at n).row i))) (at n).model }
    ensures in_order { (board : Board) (i : ℕ) (entries : List Entry) (old new : Model) (leads : Leads board entries old new) →
        ((old.source i).next ≤ (new.source i).next) ×
        (settled board i entries old new leads ≡ range_with_len (old.source i).next ((new.source i).next - (old.source i).next)) }
{}
