//! Calls on a module text.
ghost use Rattle.std.specs.Prelude.{◌≡◌, ◌+◌, ◌≤◌, take, drop, length, IfOk, IfErr, vec_len, vec_capacity};
ghost use Rattle.control.specs.Databases.{rows_of};
ghost use Rattle.listing.specs.Kept.{kept_lists};
ghost use Rattle.engine.specs.Promise.{both};
ghost use Rattle.playing.specs.declared.faults.PlayFault.TheVariants.{OutOfMemory};
ghost use Rattle.playing.specs.Promise.{database_in, PlaysText, Unplayed};
ghost use Rattle.playing.specs.Laws.{TextRunsOnce, TextKnownStays};

use crate::faults::PlayFault;
use control::{Answer, Call, Rows};
use engine::Engine;
use level::Level;
use listing::Kept;
use text::Reader;

/// The rows of six tables, lent.
pub fn rows(kept: &Kept) -> Rows<'_>
    ensures { rows_of result ≡ database_in (kept_lists kept.now) }
{
    Rows {
        symbols: kept.symbols.as_slice(),
        steps: kept.steps.as_slice(),
        statements: kept.statements.as_slice(),
        targets: kept.targets.as_slice(),
        exits: kept.exits.as_slice(),
        nodes: kept.nodes.as_slice(),
    }
}

/// Reads a text into the tables, plays the calls on the database that it says, one after the other, and adds their answers. Where the
/// text is refused, or there is no memory for the answers, no call is made.
pub fn play_text<L: Level>(
    reader: &mut Reader,
    kept: &mut Kept,
    text: &[u8],
    calls: &[Call<'_, L>],
    held: &mut [L],
    work: &mut [L],
    answers: &mut Vec<Answer<L>>,
) -> Result<(), PlayFault>
    ensures played { IfOk result (λ _. PlaysText L.Level text.now calls.now (drop (vec_len answers.old) answers.new.items) (kept_lists kept.old) (kept_lists kept.new) (both held.old work.old) (both held.new work.new)) }
    ensures before { IfOk result (λ _. take (vec_len answers.old) answers.new.items ≡ answers.old.items) }
    ensures room { vec_len answers.old + length calls.now ≤ vec_capacity answers.old → IfErr result (λ fault. ¬ (fault ≡ OutOfMemory)) }
    ensures refused { IfErr result (Unplayed text.now (kept_lists kept.old) (kept_lists kept.new)) }
    ensures left { IfErr result (λ _. (both held.new work.new ≡ both held.old work.old) × (answers.new.items ≡ answers.old.items)) }
    ensures once { TextRunsOnce }
    ensures stays { TextKnownStays }
{
    kept.read(reader, text)?;
    // The rows of a text that is not refused are sound, and so they are taken.
    let engine = Engine::new(text, rows(kept)).unwrap();
    engine.play(calls, held, work, answers)?;
    Ok(())
}
