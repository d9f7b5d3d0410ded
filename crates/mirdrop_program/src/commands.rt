//! What is answered to a text.
ghost use Rattle.std.specs.Prelude.{◌≡◌, ◌≤◌, ℕ, List, length};
ghost use Rattle.mir_edge.specs.Faults.{HasRisen};
ghost use Rattle.mirdrop_program.specs.TopCall.{Responded};
ghost use Rattle.mirdrop_program.specs.Words.{HasFewFunctions};
ghost use Rattle.mirdrop_program.specs.declared.request.Command.{Command as a_command};
ghost use Rattle.mirdrop_program.specs.declared.request.Request.{Request as a_request};

use crate::build::build_answer;
use crate::check::check_answer;
use crate::deliver::hand_on;
use crate::exec::run_listing;
use crate::raw::raw_answer;
use crate::run::run_program;
use crate::soak::soak_answer;
use crate::{Command, Request};
use mir_edge::Sink;
use std::alloc::Global;

fn respond_to_check<K: Sink>(alloc: Global, text: &[u8], sink: &mut K) -> u8
    requires short { length text.now ≤ 131072 }
    ensures counts { K.faults sink.old ≤ K.faults sink.new }
    ensures done { (request : a_request) → request.command ≡ a_command.Check →
        Responded request text.now (K.taken sink.old) (K.taken sink.new) (HasRisen (K.faults sink.old) (K.faults sink.new)) result }
{
    hand_on(sink, check_answer(alloc, text))
}

fn respond_to_raw<K: Sink>(alloc: Global, text: &[u8], sink: &mut K) -> u8
    requires short { length text.now ≤ 131072 }
    ensures counts { K.faults sink.old ≤ K.faults sink.new }
    ensures done { (request : a_request) → request.command ≡ a_command.Raw →
        Responded request text.now (K.taken sink.old) (K.taken sink.new) (HasRisen (K.faults sink.old) (K.faults sink.new)) result }
{
    hand_on(sink, raw_answer(alloc, text))
}

fn respond_to_build<K: Sink>(alloc: Global, text: &[u8], sink: &mut K) -> u8
    requires short { length text.now ≤ 131072 }
    ensures counts { K.faults sink.old ≤ K.faults sink.new }
    ensures done { (request : a_request) → request.command ≡ a_command.Build →
        Responded request text.now (K.taken sink.old) (K.taken sink.new) (HasRisen (K.faults sink.old) (K.faults sink.new)) result }
{
    hand_on(sink, build_answer(alloc, text))
}

/// Sums up the run of a program with so many functions, whatever the text.
fn respond_to_soak<K: Sink>(alloc: Global, functions: u32, ticks: u64, sink: &mut K) -> u8
    requires some { 1 ≤ functions }
    requires few { functions ≤ 1500 }
    requires ticks { ticks ≤ 1000000000 }
    ensures counts { K.faults sink.old ≤ K.faults sink.new }
    ensures done { (request : a_request) (text : List ℕ) → request.command ≡ a_command.Soak functions → request.ticks ≡ ticks →
        Responded request text (K.taken sink.old) (K.taken sink.new) (HasRisen (K.faults sink.old) (K.faults sink.new)) result }
{
    hand_on(sink, soak_answer(alloc, functions, ticks))
}

/// Does what is asked for with a text, which is nothing to `soak`.
pub fn respond<K: Sink>(alloc: Global, request: &Request, text: &[u8], sink: &mut K) -> u8
    requires short { length text.now ≤ 131072 }
    requires ticks { request.now.ticks ≤ 1000000000 }
    requires functions { HasFewFunctions request.now.command }
    ensures counts { K.faults sink.old ≤ K.faults sink.new }
    ensures done { Responded request.now text.now (K.taken sink.old) (K.taken sink.new) (HasRisen (K.faults sink.old) (K.faults sink.new)) result }
{
    match request.command {
        Command::Check => respond_to_check(alloc, text, sink),
        Command::Raw => respond_to_raw(alloc, text, sink),
        Command::Build => respond_to_build(alloc, text, sink),
        Command::Run => run_program(alloc, request, text, sink),
        Command::Exec => run_listing(alloc, request, text, sink),
        Command::Soak { functions } => respond_to_soak(alloc, functions, request.ticks, sink),
    }
}
