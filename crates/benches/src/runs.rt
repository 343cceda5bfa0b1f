//! Lists of calls, made on modules.

use crate::cases::{Deed, LENGTH_CALLS, LENGTHS, PACE, Run};
use crate::levels::{Bench, Numbered, checksum};
use crate::rows::lent;
use control::{Answer, Call};
use engine::{Engine, EngineFault};
use level::Level;
use listing::Kept;
use std::alloc::{AllocError, Global};
use text::Reader;

// The levels of some numbers.
fn levels<L: Numbered>(heap: Global, numbers: &[u64]) -> Result<Vec<L>, AllocError> {
    let mut levels = Vec::new(heap);
    for number in numbers {
        levels.push(L::of(*number))?;
    }
    Ok(levels)
}

// The levels that each call opens with, if it does.
fn starts<L: Numbered>(heap: Global, deeds: &[Deed]) -> Result<Vec<Vec<L>>, AllocError> {
    let mut starts = Vec::new(heap);
    for deed in deeds {
        starts.push(match deed {
            Deed::Open(numbers) => levels(heap, numbers)?,
            _ => Vec::new(heap),
        })?;
    }
    Ok(starts)
}

// The call, with the levels to open with.
fn call<L: Numbered>(deed: Deed, starts: &[L]) -> Call<'_, L> {
    match deed {
        Deed::Open(_) => Call::Open(starts),
        Deed::Drive(input, number) => Call::Drive(input, L::of(number)),
        Deed::Clock => Call::Clock,
        Deed::Reset => Call::Reset,
        Deed::Look(point) => Call::Look(point),
    }
}

// The calls, with the levels to open with.
fn calls<'a, L: Numbered>(
    heap: Global,
    deeds: &[Deed],
    starts: &'a [Vec<L>],
) -> Result<Vec<Call<'a, L>>, AllocError> {
    let mut calls = Vec::new(heap);
    for (deed, levels) in deeds.iter().zip(starts) {
        calls.push(call(*deed, levels.as_slice()))?;
    }
    Ok(calls)
}

// A look at each point, and at one too far.
fn looks(heap: Global, engine: &Engine<'_>) -> Result<Vec<Deed>, AllocError> {
    let design = engine.design();
    let steps = design.rows().steps.len();
    let points = design.all_bits().saturating_add(steps);
    let mut looks = Vec::new(heap);
    for point in 0..points {
        looks.push(Deed::Look(point))?;
    }
    looks.push(Deed::Look(points))?;
    Ok(looks)
}

// The letters of a level, lane by lane.
fn letters<L: Level>(heap: Global, level: L) -> anyhow::Result<String> {
    let mut text = String::new(heap);
    for lane in 0..L::lane_count() {
        text.push(level.letter(lane)?.symbol())?;
    }
    Ok(text)
}

fn show_answers<L: Level>(rt: &HostRuntime, answers: &[Answer<L>]) -> anyhow::Result<()> {
    for answer in answers {
        match *answer {
            Answer::Done => println!(rt; "done")?,
            Answer::Level(level) => println!(rt; "{}", letters(rt.alloc(), level)?)?,
            Answer::Refused(refusal) => println!(rt; "{refusal}")?,
        }
    }
    Ok(())
}

fn show_sums<L: Numbered>(rt: &HostRuntime, bench: &Bench<L>) -> anyhow::Result<()> {
    let held = checksum(bench.held.as_slice());
    let work = checksum(bench.work.as_slice());
    println!(rt; "held {held}, work {work}")?;
    Ok(())
}

// Makes calls, and prints what they answer and what the tables then hold.
fn show_deeds<L: Numbered>(
    rt: &HostRuntime,
    engine: &Engine<'_>,
    deeds: &[Deed],
    bench: &mut Bench<L>,
) -> anyhow::Result<()> {
    let starts = starts(rt.alloc(), deeds)?;
    let calls = calls(rt.alloc(), deeds, starts.as_slice())?;
    let mut answers = Vec::new(rt.alloc());
    engine.play(
        calls.as_slice(),
        bench.held.as_mut_slice(),
        bench.work.as_mut_slice(),
        &mut answers,
    )?;
    show_answers(rt, answers.as_slice())?;
    show_sums(rt, bench)
}

/// Makes the calls of a run, and then looks at all points.
pub(crate) fn show_run<L: Numbered>(
    rt: &HostRuntime,
    reader: &mut Reader,
    run: Run,
) -> anyhow::Result<()> {
    let (label, module, deeds) = run;
    println!(rt; "{label}:")?;
    let mut kept = Kept::filled(rt.alloc(), 0)?;
    kept.read(reader, module.as_bytes())?;
    let engine = Engine::new(module.as_bytes(), lent(&kept))?;
    let mut bench = Bench::<L>::new(rt.alloc())?;
    let looks = looks(rt.alloc(), &engine)?;
    show_deeds(rt, &engine, deeds, &mut bench)?;
    show_deeds(rt, &engine, looks.as_slice(), &mut bench)
}

/// Lanes that are there, and one too far.
pub(crate) fn show_lanes<L: Numbered>(rt: &HostRuntime, number: u64) -> anyhow::Result<()> {
    let count = L::lane_count();
    println!(rt;
        "{count} lanes of {number}: {}",
        letters(rt.alloc(), L::of(number))?
    )?;
    match L::of(number).letter(count) {
        Ok(letter) => println!(rt; "lane {count}: {letter}")?,
        Err(fault) => println!(rt; "lane {count}: {fault}")?,
    }
    Ok(())
}

// Makes a call by the method of its own. Answers the level of a look.
fn make<L: Numbered>(
    engine: &Engine<'_>,
    deed: Deed,
    starts: &[L],
    bench: &mut Bench<L>,
) -> Result<Option<L>, EngineFault> {
    let held = bench.held.as_mut_slice();
    let work = bench.work.as_mut_slice();
    match deed {
        Deed::Open(_) => engine.open(starts, held, work)?,
        Deed::Drive(input, number) => engine.drive(input, L::of(number), held, work)?,
        Deed::Clock => engine.clock(held, work)?,
        Deed::Reset => engine.reset(held, work)?,
        Deed::Look(point) => return Ok(Some(engine.look(point, held, work)?)),
    }
    Ok(None)
}

// Prints what was answered, and the checksums of the tables, or that they are as before.
fn show_made<L: Numbered>(
    rt: &HostRuntime,
    made: Result<Option<L>, EngineFault>,
    bench: &Bench<L>,
    before: &Bench<L>,
) -> anyhow::Result<()> {
    let kept = checksum(bench.held.as_slice()) == checksum(before.held.as_slice())
        && checksum(bench.work.as_slice()) == checksum(before.work.as_slice());
    match made {
        Ok(None) => print!(rt; "done, ")?,
        Ok(Some(level)) => print!(rt; "{}, ", letters(rt.alloc(), level)?)?,
        Err(fault) if kept => {
            println!(rt; "{fault}, all kept")?;
            return Ok(());
        }
        Err(fault) => print!(rt; "{fault}, ")?,
    }
    show_sums(rt, bench)
}

// Calls with tables of those lengths.
fn show_lengths<L: Numbered>(
    rt: &HostRuntime,
    engine: &Engine<'_>,
    held: usize,
    work: usize,
) -> anyhow::Result<()> {
    println!(rt; "{held} held rows, {work} working rows:")?;
    let before = Bench::<L>::of_lengths(rt.alloc(), held, work)?;
    for &(label, deed) in LENGTH_CALLS {
        let starts = match deed {
            Deed::Open(numbers) => levels(rt.alloc(), numbers)?,
            _ => Vec::new(rt.alloc()),
        };
        let mut bench = Bench::of_lengths(rt.alloc(), held, work)?;
        let made = make(engine, deed, starts.as_slice(), &mut bench);
        print!(rt; "{label}: ")?;
        show_made(rt, made, &bench, &before)?;
    }
    Ok(())
}

/// Calls on PACE with short and long tables.
pub(crate) fn show_call_lengths<L: Numbered>(
    rt: &HostRuntime,
    reader: &mut Reader,
) -> anyhow::Result<()> {
    let mut kept = Kept::filled(rt.alloc(), 0)?;
    kept.read(reader, PACE.as_bytes())?;
    let engine = Engine::new(PACE.as_bytes(), lent(&kept))?;
    for &(held, work) in LENGTHS {
        show_lengths::<L>(rt, &engine, held, work)?;
    }
    Ok(())
}
