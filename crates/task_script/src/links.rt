//! Where a task's next call on the same object stands, so that a reader of one object's calls
//! passes over the others.
ghost use Rattle.std.specs.Prelude.{◌<◌, All, IfOk};
ghost use Rattle.task_script.specs.Links.{HasLinks, HaveLinks};

use crate::script::Line;
use crate::version::MAX_OBJECTS;
use std::alloc::{AllocError, Global};

/// For each call the place of the next one on the same object, or how many calls there are.
fn next_calls(alloc: Global, lines: &[Line]) -> Result<Vec<usize>, AllocError>
    requires on_objects { All (λ l. l.object < MAX_OBJECTS) lines.now }
    ensures linked { IfOk result (λ next. HasLinks lines.now next.items) }
{
    let end = lines.len();
    let mut next = vec![in alloc; end; end]?;
    let mut first = [end; MAX_OBJECTS];
    let mut number = end;
    while number > 0 {
        number -= 1;
        let object = lines[number].object as usize;
        next[number] = first[object];
        first[object] = number;
    }
    Ok(next)
}

/// The same of the calls of each task.
pub(crate) fn link_calls(alloc: Global, tasks: &[Vec<Line>]) -> Result<Vec<Vec<usize>>, AllocError>
    requires on_objects { All (λ v. All (λ l. l.object < MAX_OBJECTS) v.items) tasks.now }
    ensures linked { IfOk result (λ links. HaveLinks tasks.now links.items) }
{
    let mut links = Vec::with_capacity(alloc, tasks.len())?;
    for lines in tasks {
        links.push(next_calls(alloc, lines)?)?;
    }
    Ok(links)
}
