//! All rules held against a draft.
ghost use Rattle.std.specs.Prelude.{◌≡◌, ℕ, IfOk, IfErr, vec_items};
ghost use Rattle.grammar.specs.Drafts.{draft_lists};
ghost use Rattle.least.specs.Order.{least};
ghost use Rattle.rules.specs.Strings.{strings};
ghost use Rattle.rules.specs.Faults.{faults, node_widths};
ghost use Rattle.rules.specs.Room.{MeasuresReserved, FewMeasured};

use crate::measures::Measures;
use crate::nodes::{Facts, note_nodes};
use crate::steps::{note_exits, note_resets, note_statements, note_steps};
use crate::strings::note_digits;
use crate::targets::{Assigned, note_targets};
use grammar::Draft;
use least::{Least, RuleFault};
use std::alloc::AllocError;
use symbols::{note_items, note_name};

/// The least fault of a draft against the rules, if it has one. What is measured of it stays: the strings, and the widths of its
/// nodes. The names of the draft are parts of the text.
pub fn judge(
    text: &[u8],
    draft: &Draft,
    measures: &mut Measures,
) -> Result<Option<RuleFault>, AllocError>
    ensures fault { IfOk result (λ f. f ≡ least (faults text.now (draft_lists draft.now))) }
    ensures strings { IfOk result (λ _. vec_items measures.new.strings ≡ strings (draft_lists draft.now).rows.terms.digits) }
    ensures widths { IfOk result (λ _. vec_items measures.new.widths ≡ node_widths text.now (draft_lists draft.now)) }
    ensures memory { (limit : ℕ) → MeasuresReserved limit measures.old → MeasuresReserved limit measures.new }
    ensures room { (limit : ℕ) → MeasuresReserved limit measures.old → FewMeasured limit (draft_lists draft.now) → IfErr result (λ _. ⊥) }
{
    let items = draft.items;
    let mut least = Least::new();
    note_items(text, items, &mut least);
    note_name(text, items, draft.heading.clock, &mut least);
    let assigned = Assigned {
        text,
        items,
        statements: draft.statements,
    };
    note_targets(&assigned, draft.targets, &mut measures.sides, &mut least)?;
    note_digits(draft.digits, &mut measures.strings, &mut least)?;
    let facts = Facts {
        text,
        items,
        sides: &measures.sides,
        strings: &measures.strings,
    };
    note_nodes(&facts, draft.nodes, &mut measures.widths, &mut least)?;
    note_statements(
        &measures.sides,
        &measures.widths,
        draft.statements,
        &mut least,
    );
    note_exits(draft.steps, draft.exits, &mut measures.counts, &mut least)?;
    note_steps(&measures.widths, &measures.counts, draft.steps, &mut least);
    note_resets(draft.steps, draft.resets, &mut least);
    Ok(least.fault)
}
