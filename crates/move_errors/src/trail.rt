//! The way by which a visit was reached.
ghost use Rattle.std.specs.Prelude.{◌≡◌, ◌<◌, ◌++◌, IfOk, OnOk, Some, length, map, slice_index_or};
ghost use Rattle.move_errors.specs.Runs.{Problem, Trip, met, number_of, optional, beginning};
ghost use Rattle.move_errors.specs.Stands.{Logged, ComeEarlier};

use crate::search::Visit;
use crate::{Point, Stage};
use mir_base::{List, NoMemory};
use std::alloc::Global;

/// The blocks of a path, and the choices that it gives.
#[derive(Drop)]
pub struct WayThere {
    pub path: List<u32>,
    pub answers: List<u8>,
}

fn add_block(blocks: &mut Vec<u32>, at: Point) -> Result<(), NoMemory>
    ensures { OnOk result (blocks.new.items ≡ blocks.old.items ++ met at) }
{
    if matches!(at.stage, Stage::Inside) {
        blocks.push(at.block)?;
    }
    Ok(())
}

fn add_choice(answers: &mut Vec<u8>, choice: Option<bool>) -> Result<(), NoMemory>
    ensures { OnOk result (answers.new.items ≡ answers.old.items ++ map number_of (optional choice)) }
{
    if let Some(choice) = choice {
        answers.push(choice as u8)?;
    }
    Ok(())
}

/// The path and the choices to a visit.
pub fn trail(alloc: Global, visits: &[Visit], last: u32) -> Result<WayThere, NoMemory>
    requires earlier { ComeEarlier visits.now }
    requires last { last < length visits.now }
    ensures path { IfOk result (λ trail. (f : Problem) (done : List Trip) → Logged f visits.now done → trail.path ≡ (slice_index_or done last (beginning f)).path) }
    ensures answers { IfOk result (λ trail. (f : Problem) (done : List Trip) → Logged f visits.now done → trail.answers ≡ map number_of (slice_index_or done last (beginning f)).given) }
{
    let mut path = Vec::new(alloc);
    let mut answers = Vec::new(alloc);
    let mut at = Some(last);
    while let Some(n) = at {
        let visit = visits[n as usize];
        add_choice(&mut answers, visit.choice)?;
        add_block(&mut path, visit.at)?;
        at = visit.from;
    }
    path.reverse();
    answers.reverse();
    Ok(WayThere {
        path: List::from_vec(path),
        answers: List::from_vec(answers),
    })
}
