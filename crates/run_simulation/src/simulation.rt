// Generated chains: one is put through a store in memory, once or again and again, and what is counted of it is printed.
ghost use Rattle.std.specs.Prelude.{◌≡◌, ◌≤◌, Option, List, ℕ, IfOk, string_bytes};
ghost use Rattle.outside.specs.Causes.{CountsFault};
ghost use Rattle.report_defs.specs.Report.{IsAnswerToSimulation};
ghost use Rattle.report_defs.specs.Status.{IsOneOf};
ghost use Rattle.report_defs.specs.Promise.{simulation_statuses};
ghost use Rattle.run_text.specs.Output.{SinkTook};
ghost use Rattle.run_simulation.specs.Simulation.{IsSimulationPrinted};
ghost use Rattle.run_text.specs.Words.{IsWithinCount};

use crate::lines::{made_line, soak_line};
use made_chain::{counts_of, soak_counts_of};
use node_core::Rules;
use outside::{NoMemory, Sink};
use report_defs::{Simulation, Status};
use run_text::{Answer, write_answer};
use std::alloc::Global;

/// The line of a simulation. Each has a function of its own.
fn answer_to(alloc: Global, simulation: Simulation) -> Result<String, NoMemory>
    requires { IsWithinCount simulation }
    ensures { IfOk result (λ text. IsAnswerToSimulation simulation (string_bytes text)) }
{
    match simulation {
        Simulation::Make { seed, count } => make(alloc, seed, count),
        Simulation::Soak { seed, count } => soak(alloc, seed, count),
    }
}

/// The line of the generated blocks of a seed, so many of them, that were imported.
fn make(alloc: Global, seed: u64, count: u32) -> Result<String, NoMemory>
    requires { count ≤ 20000 }
    ensures { IfOk result (λ text. IsAnswerToSimulation (Simulation.Make seed count) (string_bytes text)) }
{
    let counted = counts_of(alloc, &Rules { alloc }, seed, count)?;
    let line = made_line(alloc, count, &counted)?;
    Ok(line)
}

/// The line of the generated blocks of a seed, so many of them, that were imported again and again.
fn soak(alloc: Global, seed: u64, count: u32) -> Result<String, NoMemory>
    requires { count ≤ 100 }
    ensures { IfOk result (λ text. IsAnswerToSimulation (Simulation.Soak seed count) (string_bytes text)) }
{
    let counted = match soak_counts_of(alloc, &Rules { alloc }, seed, count) {
        Ok(counted) => counted,
        Err(stop) => return Err(stop),
    };
    match soak_line(alloc, count, &counted) {
        Ok(line) => Ok(line),
        Err(_) => Err(NoMemory),
    }
}

/// Puts a generated chain through a store in memory, and tells what is counted.
pub fn simulate<K: Sink>(alloc: Global, out: &mut K, simulation: Simulation) -> Status
    requires { IsWithinCount simulation }
    ensures text { SinkTook (K.taken out.old) (K.taken out.new) (λ taken. (left : Option (List ℕ)) → IsSimulationPrinted simulation left taken result) }
    ensures status { IsOneOf simulation_statuses result }
    ensures faults { CountsFault (K.faults out.old) (K.faults out.new) (result ≡ Status.SinkFault) }
{
    let text = match answer_to(alloc, simulation) {
        Ok(text) => text,
        Err(_) => return Status::NoMemory,
    };
    let answer = Answer {
        text,
        status: Status::Done,
    };
    write_answer(out, &answer)
}
