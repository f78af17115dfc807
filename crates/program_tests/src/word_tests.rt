//! Words of the layouts, and one call of each function with ample memory.
ghost use Rattle.std.specs.Prelude.{◌≡◌};

use std::test::Fail;
use word_bits::{
    Area, CallWords, Count, Entry, Errno, Mode, Owner, Rec, Reply, Snapshot, Spin, Tail,
};

/// An owner with the flags `waiters`, `handoff` and `pickup`.
fn owner(task: Option<u32>, flags: [bool; 3]) -> Owner
    ensures { result.task ≡ task }
{
    let [waiters, handoff, pickup] = flags;
    Owner {
        task,
        waiters,
        handoff,
        pickup,
    }
}

#[test]
fn packs_areas(rt: HostRuntime) {
    for (start, end, prot, word) in [
        (16, 20, 3, 268_435_619),
        (1_048_575, 1_048_576, 7, 17_592_177_655_815),
    ] {
        let area = Area { start, end, prot };
        assert!(rt; area.pack() == word, "{word}");
        assert!(rt; Area::unpack(word) == Some(area), "{word}");
    }
}

#[test]
fn packs_entries(rt: HostRuntime) {
    for (task, word) in [(63, 16_515_077), (399, 104_595_461)] {
        let entry = Entry { task, call: 5 };
        assert!(rt; entry.pack() == word, "{word}");
        assert!(rt; Entry::unpack(word) == Some(entry), "{word}");
    }
}

#[test]
fn packs_owners(rt: HostRuntime) {
    for (owner, word) in [
        (owner(None, [false; 3]), 0),
        (owner(Some(1), [true, false, true]), 21),
        (owner(Some(63), [true; 3]), 519),
        (owner(Some(64), [false; 3]), 520),
        (owner(Some(399), [true; 3]), 3_207),
    ] {
        assert!(rt; owner.pack() == word, "{word}");
        assert!(rt; Owner::unpack(word) == Some(owner), "{word}");
    }
    assert!(rt; Owner::unpack(3_208).is_none());
}

#[test]
fn packs_records(rt: HostRuntime) {
    for (k, reply, word) in [
        (1, Reply::Num(16), 67_633_153),
        (2, Reply::Good, 262_146),
        (2, Reply::Refused(Errno::NoMem), 51_118_082),
        (2, Reply::Refused(Errno::Fault), 59_506_690),
        (2, Reply::MapErr, 1_048_578),
        (2, Reply::AccErr, 1_310_722),
        (2, Reply::Busy(256), 1_075_314_690),
        (2, Reply::Intr, 1_835_010),
        (2, Reply::Sent, 2_097_154),
    ] {
        let rec = Rec { k, reply };
        assert!(rt; rec.pack() == word, "{word}");
        assert!(rt; Rec::unpack(word) == Some(rec), "{word}");
    }
}

#[test]
fn packs_words_of_spin_locks(rt: HostRuntime) {
    for (locked, pending, tail, word) in [
        (true, true, Some(Tail { cpu: 2, index: 0 }), 6401),
        (true, false, Some(Tail { cpu: 2, index: 1 }), 6657),
        (false, false, None, 0),
    ] {
        let spin = Spin {
            locked,
            pending,
            tail,
        };
        assert!(rt; spin.pack() == word, "{word}");
        assert!(rt; Spin::unpack(word) == Some(spin), "{word}");
    }
    assert!(rt; Spin::default().pack() == 0);
}

#[test]
fn packs_counts(rt: HostRuntime) {
    for (writer, waiters, handoff, readers, word) in [
        (true, true, false, 0, 3),
        (false, true, true, 2, 518),
        (false, false, false, 0, 0),
    ] {
        let count = Count {
            writer,
            waiters,
            handoff,
            readers,
            read_fail: false,
        };
        assert!(rt; count.pack() == word, "{word}");
        assert!(rt; Count::unpack(word) == Some(count), "{word}");
    }
    assert!(rt; Count::default().pack() == 0);
    let many = Count {
        readers: (1 << 55) - 1,
        read_fail: true,
        ..Count::default()
    };
    assert!(rt; many.pack() == u64::MAX - 255);
}

#[test]
fn unpacks_no_other_area_or_entry(rt: HostRuntime) {
    // An empty run, a run past the last page, and a bit above the layout.
    for word in [0, 16 << 24 | 16 << 3, 1_048_577 << 3, 1 << 44 | 1 << 3] {
        assert!(rt; Area::unpack(word).is_none(), "area {word}");
    }
    // The first task that isn't there, the last that its bits could name, and a bit above them.
    for word in [400 << 18, (1 << 27) - 1, 1 << 27] {
        assert!(rt; Entry::unpack(word).is_none(), "entry {word}");
    }
}

#[test]
fn unpacks_no_other_word_of_a_lock(rt: HostRuntime) {
    assert!(rt; Count::unpack(8).is_none());
    // A locked byte of 2, a node of no CPU, and a bit above the layout.
    for word in [2, 512, 1 << 32] {
        assert!(rt; Spin::unpack(word).is_none(), "spin lock {word}");
    }
}

#[test]
fn unpacks_no_other_record(rt: HostRuntime) {
    // No record, a kind that isn't there, a value where none belongs, the error of an interrupted
    // call, and a bit above the layout.
    for word in [
        0,
        9 << 18,
        1 << 22 | 1 << 18,
        4 << 22 | 3 << 18,
        1 << 44 | 1 << 18,
    ] {
        assert!(rt; Rec::unpack(word).is_none(), "record {word}");
    }
}

#[test]
fn reads_modes(rt: HostRuntime) {
    for (b, mode) in [
        (7, Mode::Plain),
        (7 | 1 << 24, Mode::Int),
        (7 | 2 << 24, Mode::Try),
    ] {
        assert!(rt; CallWords { a: 5, b }.mode() == mode, "{b}");
        assert!(rt; CallWords { a: 5, b }.has_mode(), "{b}");
    }
    assert!(rt; !CallWords { a: 0, b: 3 << 24 }.has_mode());
}

#[test]
fn reads_the_fields_of_a_call(rt: HostRuntime) {
    let words = CallWords::new(11, 5, 7, 3, 4, Mode::Try);
    assert!(rt; (words.a, words.b) == (5 | 7 << 32, 11 | 3 << 8 | 4 << 16 | 2 << 24));
    assert!(rt; (words.kind(), words.first(), words.second()) == (11, 5, 7));
    assert!(rt; (words.prot(), words.access(), words.mode()) == (3, 4, Mode::Try));
}

#[test]
fn reads_signals(rt: HostRuntime) {
    assert!(rt; CallWords { a: 5, b: 15 }.signal() == Some(5));
    assert!(rt; CallWords { a: 5, b: 7 }.signal().is_none());
}

#[test]
fn numbers_errors(rt: HostRuntime) {
    for (errno, number) in [
        (Errno::BadF, 9),
        (Errno::NoMem, 12),
        (Errno::Exist, 17),
        (Errno::Inval, 22),
        (Errno::MFile, 24),
        (Errno::Fault, 14),
    ] {
        assert!(rt; errno.number() == number, "{number}");
    }
}

#[test]
fn keeps_what_is_pushed(rt: HostRuntime) -> Result<(), Fail> {
    let mut snapshot = Snapshot::new(rt.alloc(), 2, 1, 1)?;
    snapshot.push_rec(3);
    snapshot.push_rec(4);
    snapshot.push_log(5);
    snapshot.push_state(6);
    assert!(rt; snapshot.recs() == [3, 4].as_slice());
    assert!(rt; snapshot.log() == [5].as_slice());
    assert!(rt; snapshot.state() == [6].as_slice());
    Ok(())
}
