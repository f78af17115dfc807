//! The state that an object is left in.
ghost use Rattle.std.specs.Prelude.{◌≡◌, ◌++◌, length, flat_map};
ghost use Rattle.word_bits.specs.PageMaps.{PageMap, IsPageMap};
ghost use Rattle.vma_map.specs.Spaces.{stores as stores_space};
ghost use Rattle.fd_table.specs.Tables.{FdMap, IsFdMap, fd_map, stores};
ghost use Rattle.byte_streams.specs.Causes.{CountsFailure, Adds};
ghost use Rattle.mm_report.specs.Text.{area_text, descriptor_text, descriptors_text, left_text, space_text, table_text};

use crate::line::{add_area, add_descriptor, add_left};
use byte_streams::{Failed, Outbox, Sink};
use fd_table::{DESCRIPTORS, Fds};
use vma_map::Areas;
use word_bits::{Area, Object, ValueObject};

// The lines of these areas.
fn write_areas<K: Sink>(areas: &[Area], out: &mut Outbox, sink: &mut K) -> Result<(), Failed>
    ensures text { Adds (K.written sink.old) (K.written sink.new) out.old out.new
        (flat_map area_text areas.now) result }
    ensures cause { CountsFailure (K.faults sink.old) (K.faults sink.new) result }
{
    for area in areas {
        write_area(*area, out, sink)?;
    }
    Ok(())
}

fn write_area<K: Sink>(area: Area, out: &mut Outbox, sink: &mut K) -> Result<(), Failed>
    ensures text { Adds (K.written sink.old) (K.written sink.new) out.old out.new
        (area_text area) result }
    ensures cause { CountsFailure (K.faults sink.old) (K.faults sink.new) result }
{
    out.make_room(sink)?;
    add_area(out, area);
    Ok(())
}

fn write_count<K: Sink>(count: u64, out: &mut Outbox, sink: &mut K) -> Result<(), Failed>
    ensures text { Adds (K.written sink.old) (K.written sink.new) out.old out.new
        (left_text count) result }
    ensures cause { CountsFailure (K.faults sink.old) (K.faults sink.new) result }
{
    out.make_room(sink)?;
    add_left(out, count);
    Ok(())
}

fn write_runs<K: Sink>(runs: &[Area], out: &mut Outbox, sink: &mut K) -> Result<(), Failed>
    ensures text { Adds (K.written sink.old) (K.written sink.new) out.old out.new
        (left_text (length runs.now) ++ flat_map area_text runs.now) result }
    ensures cause { CountsFailure (K.faults sink.old) (K.faults sink.new) result }
{
    write_count(runs.len() as u64, out, sink)?;
    write_areas(runs, out, sink)
}

// The areas that a space is left with, from its words.
pub(crate) fn write_space<K: Sink>(
    state: &[u64],
    out: &mut Outbox,
    sink: &mut K,
) -> Result<(), Failed>
    ensures text { (m : PageMap) → IsPageMap m → stores_space m ≡ state.now →
        Adds (K.written sink.old) (K.written sink.new) out.old out.new (space_text m) result }
    ensures cause { CountsFailure (K.faults sink.old) (K.faults sink.new) result }
{
    if state.len() != Areas::WORDS {
        return Ok(());
    }
    let Some(space) = Areas::load(state) else {
        return Ok(());
    };
    write_runs(space.runs(), out, sink)
}

// The line of a descriptor, where it is open.
fn write_descriptor<K: Sink>(
    fd: u32,
    file: Option<u16>,
    out: &mut Outbox,
    sink: &mut K,
) -> Result<(), Failed>
    ensures text { Adds (K.written sink.old) (K.written sink.new) out.old out.new
        (descriptor_text fd file) result }
    ensures cause { CountsFailure (K.faults sink.old) (K.faults sink.new) result }
{
    let Some(file) = file else {
        return Ok(());
    };
    out.make_room(sink)?;
    add_descriptor(out, fd, file);
    Ok(())
}

// The lines of the open descriptors.
fn write_descriptors<K: Sink>(fds: &Fds, out: &mut Outbox, sink: &mut K) -> Result<(), Failed>
    ensures text { Adds (K.written sink.old) (K.written sink.new) out.old out.new
        (descriptors_text (fd_map fds.now) 0 64) result }
    ensures cause { CountsFailure (K.faults sink.old) (K.faults sink.new) result }
{
    for fd in 0..DESCRIPTORS as u32 {
        write_descriptor(fd, fds.file(fd), out, sink)?;
    }
    Ok(())
}

fn write_fds<K: Sink>(fds: &Fds, out: &mut Outbox, sink: &mut K) -> Result<(), Failed>
    ensures text { Adds (K.written sink.old) (K.written sink.new) out.old out.new
        (table_text (fd_map fds.now)) result }
    ensures cause { CountsFailure (K.faults sink.old) (K.faults sink.new) result }
{
    write_count(u64::from(fds.used()), out, sink)?;
    write_descriptors(fds, out, sink)
}

// The open descriptors that a table is left with, from its words.
pub(crate) fn write_table<K: Sink>(
    state: &[u64],
    out: &mut Outbox,
    sink: &mut K,
) -> Result<(), Failed>
    ensures text { (m : FdMap) → IsFdMap m → stores m ≡ state.now →
        Adds (K.written sink.old) (K.written sink.new) out.old out.new (table_text m) result }
    ensures cause { CountsFailure (K.faults sink.old) (K.faults sink.new) result }
{
    if state.len() != Fds::WORDS {
        return Ok(());
    }
    let Some(fds) = Fds::load(state) else {
        return Ok(());
    };
    write_fds(&fds, out, sink)
}
