//! Whole runs over memory: each status, what was written, and what was noted.
ghost use Rattle.std.specs.Prelude.{◌≤◌, None};

use crate::scenes::WALL as UNEVEN;
use icet_base::{
    Gate, MemSink, MemSource, NoMemory, PlainGate, Rank, ReadFault, Source, SureSink, SureSource,
};
use icet_cli::{Status, run};
use icet_jobs::{Way, composite};
use icet_multi::{Settings, Single, Strategy};
use icet_ring::{MemInbox, MemOutbox, MemWires, Wires};
use icet_ring_wires::{RingWires, ScriptWires};
use icet_scene::read::read;
use icet_tests::meeting::MeetingGate;
use std::alloc::Global;
use std::process::Abort;
use std::sync::atomic::{AtomicU32, Ordering};
use std::thread::Threads;

pub(crate) const WORDS: [&str; 3] = ["composite", "--strategy", "direct"];

pub(crate) const POINT: &str =
    "icet-scene 1\nmode depth\nranks 1\ntile 0 0 1 1 0\npoint 0 0 0 7 10 20 30 255\nend\n";

pub(crate) const PICTURE: &[u8] =
    b"P7\nWIDTH 1\nHEIGHT 1\nDEPTH 4\nMAXVAL 255\nTUPLTYPE RGB_ALPHA\nENDHDR\n\x0a\x14\x1e\xff";

/// Points in and around a tile that doesn't begin at the corner; of equal depths the earlier one shows.
pub(crate) const AROUND: &str =
    "icet-scene 1\nmode depth\nranks 1\ntile 2 1 2 2 0\npoint 0 3 2 7 1 0 0 255\npoint 0 3 2 7 2 0 0 255\npoint 0 2 1 9 3 0 0 255\npoint 0 2 1 8 4 0 0 255\npoint 0 4 1 0 5 0 0 255\npoint 0 1 1 0 6 0 0 255\nend\n";

/// Two by two pixels, of which the first and the last were drawn.
pub(crate) const FOUR: &[u8] =
    b"P7\nWIDTH 2\nHEIGHT 2\nDEPTH 4\nMAXVAL 255\nTUPLTYPE RGB_ALPHA\nENDHDR\n\x04\x00\x00\xff\x00\x00\x00\x00\x00\x00\x00\x00\x01\x00\x00\xff";

/// Two ranks at one depth.
const TWO_RANKS: &str =
    "icet-scene 1\nmode depth\nranks 2\ntile 0 0 1 1 0\npoint 1 0 0 7 2 2 2 255\npoint 0 0 0 7 1 1 1 255\nend\n";

/// One pixel, of rank 0.
const TIE: &[u8] =
    b"P7\nWIDTH 1\nHEIGHT 1\nDEPTH 4\nMAXVAL 255\nTUPLTYPE RGB_ALPHA\nENDHDR\n\x01\x01\x01\xff";

/// Nobody draws.
const NOTHING: &str = "icet-scene 1\nmode depth\nranks 3\ntile 5 5 2 1 2\nend\n";

/// Two by one pixels, where nothing was drawn.
const BLANK: &[u8] =
    b"P7\nWIDTH 2\nHEIGHT 1\nDEPTH 4\nMAXVAL 255\nTUPLTYPE RGB_ALPHA\nENDHDR\n\x00\x00\x00\x00\x00\x00\x00\x00";

/// Three ranks, each of which is the nearest somewhere.
const THREE_RANKS: &str =
    "icet-scene 1\nmode depth\nranks 3\ntile 0 0 2 2 1\npoint 0 0 0 9 1 0 0 255\npoint 0 0 1 4 1 0 0 255\npoint 1 0 0 8 2 0 0 255\npoint 1 1 0 4 2 0 0 255\npoint 2 0 0 7 3 0 0 255\npoint 2 1 0 4 3 0 0 255\npoint 2 0 1 5 3 0 0 255\nend\n";

/// Two by two pixels: of rank 2, of rank 1, of rank 0 and of none.
const OF_EACH: &[u8] =
    b"P7\nWIDTH 2\nHEIGHT 2\nDEPTH 4\nMAXVAL 255\nTUPLTYPE RGB_ALPHA\nENDHDR\n\x03\x00\x00\xff\x02\x00\x00\xff\x01\x00\x00\xff\x00\x00\x00\x00";

/// The line of a text that is too long.
const LONG: &[u8] = b"icet: scene longer than 67108864 bytes\n";

/// The number of a call that is never made.
pub(crate) const NEVER: u64 = 1_000_000;

/// What has to come of a run.
#[derive(Clone, Copy)]
pub(crate) struct Want {
    status: Status,
    written: &'static [u8],
    noted: &'static str,
}

pub(crate) fn done(written: &'static [u8]) -> Want {
    Want {
        status: Status::Ok,
        written,
        noted: "",
    }
}

pub(crate) fn fault(status: Status, written: &'static [u8], noted: &'static str) -> Want {
    Want {
        status,
        written,
        noted,
    }
}

/// Ten bytes of the scene a call, of which the one with this number fails.
pub(crate) fn source_of(alloc: Global, scene: &str, fails: u64) -> Result<MemSource, NoMemory> {
    let bytes = Vec::from_slice(alloc, scene.as_bytes())?;
    Ok(MemSource::new(bytes, 10, vec![in alloc; fails]?))
}

/// What came of a run.
#[derive(Drop)]
pub(crate) struct Came {
    status: Status,
    sink: MemSink,
    notes: MemSink,
}

impl Came {
    /// Whether all went well and exactly these bytes were written.
    pub(crate) fn wrote(&self, bytes: &[u8]) -> bool {
        self.status == Status::Ok && self.sink.bytes() == bytes
    }

    /// Whether all went well and these bytes were written last.
    pub(crate) fn wrote_in_the_end(&self, bytes: &[u8]) -> bool {
        self.status == Status::Ok && self.sink.bytes().ends_with(bytes)
    }

    /// Whether this is what had to come.
    pub(crate) fn is(&self, want: Want) -> bool {
        self.status == want.status
            && self.sink.bytes() == want.written
            && self.notes.bytes() == want.noted.as_bytes()
    }
}

/// A sink that takes 1,024 bytes, 40 a call.
fn sink_of(alloc: Global) -> Result<MemSink, NoMemory> {
    MemSink::new(alloc, 1024, 40, Vec::new(alloc))
}

/// What comes of a run over memory, of which no call of the sink fails.
fn came_of_source<R: Threads + Sync>(
    rt: &R,
    alloc: Global,
    words: &[&str],
    source: &mut MemSource,
) -> Result<Came, NoMemory> {
    came_into(rt, alloc, words, source, sink_of(alloc)?)
}

/// What comes of a run over memory, which writes to this sink.
pub(crate) fn came_into<R: Threads + Sync>(
    rt: &R,
    alloc: Global,
    words: &[&str],
    source: &mut MemSource,
    sink: MemSink,
) -> Result<Came, NoMemory> {
    came_through(
        rt,
        alloc,
        words,
        source,
        sink,
        &mut MemWires::new(alloc),
        &PlainGate,
    )
}

/// The same over these wires, through this gate.
fn came_through<R: Threads + Sync, W: Wires, G: Gate>(
    rt: &R,
    alloc: Global,
    words: &[&str],
    source: &mut MemSource,
    mut sink: MemSink,
    wires: &mut W,
    gate: &G,
) -> Result<Came, NoMemory> {
    let mut notes = MemSink::new(alloc, 1024, 1024, Vec::new(alloc))?;
    let status = run(rt, alloc, words, source, &mut sink, &mut notes, wires, gate);
    Ok(Came {
        status,
        sink,
        notes,
    })
}

/// What comes of a run on this scene, in which nothing fails.
pub(crate) fn came_of_scene<R: Threads + Sync>(
    rt: &R,
    alloc: Global,
    words: &[&str],
    scene: &str,
) -> Result<Came, NoMemory> {
    came_over(
        rt,
        alloc,
        words,
        scene,
        &mut MemWires::new(alloc),
        &PlainGate,
    )
}

/// The same over these wires, through this gate.
pub(crate) fn came_over<R: Threads + Sync, W: Wires, G: Gate>(
    rt: &R,
    alloc: Global,
    words: &[&str],
    scene: &str,
    wires: &mut W,
    gate: &G,
) -> Result<Came, NoMemory> {
    let mut source = source_of(alloc, scene, NEVER)?;
    came_through(rt, alloc, words, &mut source, sink_of(alloc)?, wires, gate)
}

/// What comes of a run on the first bytes of this scene, so many of them, in which nothing fails.
pub(crate) fn came_of_front<R: Threads + Sync>(
    rt: &R,
    alloc: Global,
    words: &[&str],
    scene: &str,
    count: usize,
) -> Result<Came, NoMemory> {
    let text = scene.as_bytes();
    let front = Vec::from_slice(alloc, &text[..count.min(text.len())])?;
    let mut source = MemSource::new(front, 10, vec![in alloc; NEVER]?);
    came_of_source(rt, alloc, words, &mut source)
}

/// Stops the test unless this came.
pub(crate) fn assert_came<R: Abort>(rt: &R, came: &Result<Came, NoMemory>, want: Want, case: &str) {
    match came {
        Ok(came) => {
            assert_eq!(rt; came.status, want.status, "{case}");
            assert_eq!(rt; came.sink.bytes(), want.written, "{case}");
            assert_eq!(rt; came.notes.bytes(), want.noted.as_bytes(), "{case}");
        }
        Err(_) => assert!(rt; false, "{case}"),
    }
}

#[test]
fn each_scene_gets_its_picture(rt: HostRuntime) {
    for (scene, picture) in [
        (POINT, PICTURE),
        (AROUND, FOUR),
        (TWO_RANKS, TIE),
        (NOTHING, BLANK),
        (THREE_RANKS, OF_EACH),
    ] {
        let came = came_of_scene(&rt, rt.alloc(), &WORDS, scene);
        assert_came(&rt, &came, done(picture), scene);
    }
}

#[test]
fn each_command_writes_its_text(rt: HostRuntime) {
    for (job, cap, schedule, written) in [
        ("composite", "1", "1", TIE),
        (
            "replay",
            "1",
            "0,1,0,1,0",
            b"0 stalled\n1 moved\n0 moved\n1 done\n0 done\nfinished\n",
        ),
        ("replay", "1", "0", b"0 stalled\nunfinished 0\n"),
        ("summary", "1", "0", b"tile 0 1 1 0 1 1 1 255\nweight 32\n"),
        ("replay", "64", "2,1", b"2 absent\n1 moved\nunfinished 0\n"),
    ] {
        let words = [
            job,
            "--strategy",
            "direct",
            "--cap",
            cap,
            "--schedule",
            schedule,
        ];
        let came = came_of_scene(&rt, rt.alloc(), &words, TWO_RANKS);
        assert_came(&rt, &came, done(written), schedule);
    }
}

/// One rank, which draws the first and the third of four pixels.
const APART: &str =
    "icet-scene 1\nmode depth\nranks 1\ntile 0 0 4 1 0\npoint 0 0 0 7 1 2 3 255\npoint 0 2 0 7 4 5 6 255\nend\n";

// In two strands the pixels stand in the order 0, 2, 1, 3, and in three in the order 0, 3, 1, 2. The picture is the
// same.
#[test]
fn images_are_weighed_in_their_strands(rt: HostRuntime) {
    for (strands, written) in [
        ("1", b"tile 0 4 1 2 5 7 9 510\nweight 32\n".as_slice()),
        ("2", b"tile 0 4 1 2 5 7 9 510\nweight 24\n"),
        ("3", b"tile 0 4 1 2 5 7 9 510\nweight 32\n"),
    ] {
        let words = ["summary", "--strands", strands];
        let came = came_of_scene(&rt, rt.alloc(), &words, APART);
        assert_came(&rt, &came, done(written), strands);
    }
}

/// Five ranks that draw nothing, over seven pixels.
pub(crate) const FIVE_RANKS: &str = "icet-scene 1\nmode depth\nranks 5\ntile 0 0 7 1 0\nend\n";

/// Three ranks that draw nothing; the display swaps with nobody.
const OUTSIDE: &str = "icet-scene 1\nmode depth\nranks 3\ntile 0 0 4 1 1\nend\n";

/// Two of three ranks draw into each tile, and the display of each is the one that doesn't.
const CROSSED: &str =
    "icet-scene 1\nmode depth\nranks 3\ntile 0 0 1 1 1\ntile 1 0 1 1 0\npoint 0 0 0 1 9 9 9 255\npoint 2 0 0 1 9 9 9 255\npoint 1 1 0 1 9 9 9 255\npoint 2 1 0 1 9 9 9 255\nend\n";

const SWAPS: &[u8] =
    b"0 2 1 0 3 7\n0 3 2 0 1 3\n1 0 0 0 0 7\n2 0 1 0 0 3\n2 0 3 0 3 5\n2 4 2 0 5 7\n3 0 2 0 0 1\n3 0 3 0 1 3\n3 4 1 0 3 7\n4 0 3 0 5 7\n4 2 2 0 3 5\n4 3 1 0 0 3\n";

/// Words, a scene, and what is told of its plan.
const PLAN_TEXTS: &[(&[&str], &str, &[u8])] = &[
    (
        &["--strategy", "sequential", "traffic", "--single", "tree"],
        NOTHING,
        b"0 2 2 0 0 2\n1 0 0 0 0 2\n2 0 1 0 0 2\n",
    ),
    (
        &[
            "--strategy=sequential",
            "--single=bswap",
            "traffic",
            "--k=2",
        ],
        FIVE_RANKS,
        SWAPS,
    ),
    (
        &[
            "--strategy=sequential",
            "--single=bswap",
            "traffic",
            "--seed=0",
        ],
        OUTSIDE,
        b"0 1 2 0 0 2\n0 2 1 0 2 4\n1 0 0 0 0 4\n2 0 1 0 0 2\n2 1 2 0 2 4\n",
    ),
    (
        &["--strategy", "direct", "plan", "--burst", "1"],
        TWO_RANKS,
        b"tile 0 (0 1)\nrank 0 take 0 1 0 0 1\nrank 1 send 0 0 0 0 1\n",
    ),
    (
        &["--strategy=reduce", "--single=tree", "traffic"],
        UNEVEN,
        b"1 2 0 0 0 4\n2 0 1 0 0 4\n2 3 0 0 0 4\n3 0 2 0 0 4\n3 1 0 1 0 4\n",
    ),
    (
        &["traffic", "--single=tree"],
        CROSSED,
        b"0 1 0 0 0 1\n1 0 0 1 0 1\n2 0 0 1 0 1\n2 1 1 0 0 1\n",
    ),
    (
        &["--strategy", "direct", "plan", "--burst", "1"],
        NOTHING,
        b"tile 0 -\n",
    ),
    (&["--strategy", "direct", "traffic"], NOTHING, b""),
];

// Options and the job stand in any order, with a space or a sign between name and value.
#[test]
fn a_plan_is_told_as_its_words_ask(rt: HostRuntime) {
    for (words, scene, written) in PLAN_TEXTS {
        let came = came_of_scene(&rt, rt.alloc(), words, scene);
        assert_came(&rt, &came, done(written), "plan");
    }
}

/// What comes of a run over rings whose ports look away at the first so many calls at which they know of nothing,
/// or over plain rings.
fn came_over_rings<R: Threads + Sync>(
    rt: &R,
    alloc: Global,
    words: &[&str],
    scene: &str,
    blind: u64,
) -> Result<Came, NoMemory> {
    if blind == 0 {
        let mut wires = RingWires::new(alloc);
        return came_over(rt, alloc, words, scene, &mut wires, &PlainGate);
    }
    let mut calls = Vec::new(alloc);
    for call in 0..blind {
        calls.push(call)?;
    }
    let mut wires = ScriptWires::new(alloc, calls);
    came_over(rt, alloc, words, scene, &mut wires, &PlainGate)
}

// Whatever the wires miss, the same bytes are written.
#[test]
fn each_kind_of_wires_carries_the_same_pictures(rt: HostRuntime) {
    for blind in [0, 1, 10] {
        for cap in ["1", "4", "64"] {
            for (scene, picture) in [(TWO_RANKS, TIE), (THREE_RANKS, OF_EACH), (NOTHING, BLANK)] {
                let words = [
                    "composite",
                    "--strategy=sequential",
                    "--single=bswap",
                    "--cap",
                    cap,
                ];
                let came = came_over_rings(&rt, rt.alloc(), &words, scene, blind);
                assert_came(&rt, &came, done(picture), cap);
                let words = ["composite", "--strands=3", "--cap", cap, "--burst=1"];
                let came = came_over_rings(&rt, rt.alloc(), &words, scene, blind);
                assert_came(&rt, &came, done(picture), cap);
            }
        }
    }
}

/// Words of each strategy and single strategy, with other settings too.
const SAME_PICTURES: &[&[&str]] = &[
    &["composite", "--strategy", "direct", "--cap", "1"],
    &["composite", "--strategy", "sequential", "--workers", "3"],
    &[
        "composite",
        "--strategy=sequential",
        "--single=tree",
        "--burst",
        "1",
    ],
    &[
        "composite",
        "--strategy=sequential",
        "--single=bswap",
        "--cap",
        "64",
    ],
    &[
        "composite",
        "--strategy=sequential",
        "--single=radixk",
        "--k",
        "2",
    ],
    &[
        "composite",
        "--strategy=reduce",
        "--single=tree",
        "--cap",
        "1",
    ],
    &[
        "composite",
        "--strategy=reduce",
        "--single=bswap",
        "--burst",
        "1",
    ],
    &[
        "composite",
        "--strategy=reduce",
        "--single=radixk",
        "--k",
        "8",
    ],
];

// By depth each strategy shows the nearest fragment, and of equal ones that of the lowest rank.
#[test]
fn each_strategy_writes_the_same_picture(rt: HostRuntime) {
    for words in SAME_PICTURES {
        for (scene, picture) in [(TWO_RANKS, TIE), (THREE_RANKS, OF_EACH), (POINT, PICTURE)] {
            let came = came_of_scene(&rt, rt.alloc(), words, scene);
            assert_came(&rt, &came, done(picture), "each strategy");
        }
    }
}

#[test]
fn other_words_are_refused_with_nothing_read(rt: HostRuntime) {
    let refused = fault(Status::WordsRefused, b"", "icet: words refused\n");
    for words in [
        [].as_slice(),
        &["compose"],
        &["composite", "extra"],
        &["composite", "--strategy", "tree"],
        &["composite", "--cap", "0"],
        &["composite", "--cap", "65"],
        &["composite", "--cap", "2", "--cap", "2"],
        &["composite", "--cap"],
        &["composite", "--strands", "0"],
        &["composite", "--strands", "65"],
        &["replay", "--schedule", "1,,2"],
        &["replay", "--schedule", "256"],
        &["--help"],
        &["composite", "--version"],
    ] {
        match source_of(rt.alloc(), POINT, NEVER) {
            Ok(mut source) => {
                let came = came_of_source(&rt, rt.alloc(), words, &mut source);
                assert_came(&rt, &came, refused, "words");
                let mut front = [0; 10];
                let _ = source.read(&mut front);
                assert!(rt; front == *b"icet-scene");
            }
            Err(_) => assert!(rt; false),
        }
    }
}

/// Counts how often a rank entered.
#[derive(Drop)]
struct CountingGate {
    entries: AtomicU32,
}

impl Gate for CountingGate {
    fn enter(&self, _rank: Rank) {
        self.entries.fetch_add(1, Ordering::SeqCst);
    }
}

/// How often the ranks entered in a run over ends that never fail, which has to end well.
fn entries_of<R: Threads + Sync>(
    rt: &R,
    alloc: Global,
    words: &[&str],
    scene: &str,
) -> Result<Option<u32>, NoMemory> {
    let bytes = Vec::from_slice(alloc, scene.as_bytes())?;
    let mut source = SureSource::new(alloc, bytes, 10);
    let mut wires = MemWires::new(alloc);
    let gate = CountingGate {
        entries: AtomicU32::new(0),
    };
    let status = run(
        rt,
        alloc,
        words,
        &mut source,
        &mut SureSink::new(),
        &mut SureSink::new(),
        &mut wires,
        &gate,
    );
    Ok(match status {
        Status::Ok => Some(gate.entries.load(Ordering::SeqCst)),
        _ => None,
    })
}

/// Wires that note with which capacity each pair was opened.
#[derive(Drop)]
struct NotingWires {
    inner: MemWires,
    caps: Vec<u32>,
}

impl Wires for NotingWires {
    type Out = MemOutbox;

    type In = MemInbox;

    ghost log = { λ w. w.inner.log };

    ghost owed = { λ w. w.inner.owed };

    fn open_pair(
        &mut self,
        alloc: Global,
        from: Rank,
        to: Rank,
        cap: u32,
        total: u32,
    ) -> Result<(MemOutbox, MemInbox), NoMemory> {
        self.caps.push(cap)?;
        self.inner.open_pair(alloc, from, to, cap, total)
    }

    fn sync(
        &mut self,
        out: &mut MemOutbox,
        inbox: &mut MemInbox,
        cap: u32,
    ) -> Result<(), NoMemory> {
        self.inner.sync(out, inbox, cap)
    }

    fn close_pair(&mut self, from: Rank, to: Rank, out: MemOutbox, inbox: MemInbox) {
        self.inner.close_pair(from, to, out, inbox);
    }
}

/// The capacities of the pairs that a run with these words opens.
fn caps_of<R: Threads + Sync>(
    rt: &R,
    alloc: Global,
    words: &[&str],
    scene: &str,
) -> Result<Vec<u32>, NoMemory> {
    let bytes = Vec::from_slice(alloc, scene.as_bytes())?;
    let mut wires = NotingWires {
        inner: MemWires::new(alloc),
        caps: Vec::new(alloc),
    };
    let _ = run(
        rt,
        alloc,
        words,
        &mut SureSource::new(alloc, bytes, 10),
        &mut SureSink::new(),
        &mut SureSink::new(),
        &mut wires,
        &PlainGate,
    );
    Ok(wires.caps)
}

#[test]
fn each_pair_has_the_capacity_of_the_words(rt: HostRuntime) {
    for (job, cap, want) in [
        ("composite", "1", [1, 1].as_slice()),
        ("composite", "64", &[64, 64]),
        ("replay", "1", &[]),
    ] {
        let words = [job, "--strategy", "direct", "--cap", cap];
        match caps_of(&rt, rt.alloc(), &words, THREE_RANKS) {
            Ok(caps) => assert_eq!(rt; caps.as_slice(), want, "{job} {cap}"),
            Err(_) => assert!(rt; false),
        }
    }
}

/// How often the ranks entered where a scene is composited with this burst.
fn entries_with_burst<R: Threads + Sync>(rt: &R, alloc: Global, burst: u32) -> Result<u32, NoMemory>
    requires { 1 ≤ burst }
{
    let gate = CountingGate {
        entries: AtomicU32::new(0),
    };
    let way = Way {
        settings: Settings {
            strategy: Strategy::Direct,
            single: Single::Tree,
            k: 8,
        },
        cap: 4,
        workers: 1,
        burst,
        strands: 1,
    };
    match read(alloc, THREE_RANKS.as_bytes()) {
        Ok(scene) => {
            composite(rt, alloc, &scene, &way, &mut MemWires::new(alloc), &gate)?;
            Ok(gate.entries.load(Ordering::SeqCst))
        }
        Err(_) => Err(NoMemory),
    }
}

// Two of the three ranks send in the first turn, and the third takes both messages from the second one on. A
// turn that has made its exchanges leaves what stands behind the last one to the next turn.
#[test]
fn a_rank_makes_as_many_exchanges_as_its_burst(rt: HostRuntime) {
    for (burst, want) in [(1, 4 * 3), (2, 3 * 3), (3, 2 * 3)] {
        let entries = entries_with_burst(&rt, rt.alloc(), burst);
        assert_eq!(rt; entries, Ok(want), "{burst}");
    }
}

/// A source of so many newlines.
#[derive(Drop)]
struct Newlines {
    left: usize,
}

impl Source for Newlines {
    ghost told = { λ _. record { left = None; faults = 0 } };

    fn read(&mut self, buf: &mut [u8]) -> Result<usize, ReadFault> {
        let n = buf.len().min(self.left);
        buf[..n].fill(b'\n');
        self.left -= n;
        Ok(n)
    }
}

/// How a run on this source ends.
fn status_of<R: Threads + Sync>(
    rt: &R,
    alloc: Global,
    source: &mut Newlines,
    notes: &mut MemSink,
) -> Status {
    run(
        rt,
        alloc,
        &WORDS,
        source,
        &mut SureSink::new(),
        notes,
        &mut MemWires::new(alloc),
        &PlainGate,
    )
}

#[test]
fn a_text_too_long_is_refused_and_not_read_on(rt: HostRuntime) {
    for (len, left) in [(67_108_865, 0), (4_294_967_296, 4_294_967_296 - 67_174_400)] {
        let mut source = Newlines { left: len };
        match MemSink::new(rt.alloc(), 1024, 1024, Vec::new(rt.alloc())) {
            Ok(mut notes) => {
                let status = status_of(&rt, rt.alloc(), &mut source, &mut notes);
                assert_eq!(rt; status, Status::SceneRefused, "{len}");
                assert_eq!(rt; notes.bytes(), LONG, "{len}");
                assert_eq!(rt; source.left, left, "{len}");
            }
            Err(_) => assert!(rt; false),
        }
    }
}

// At least one turn, and at most one for each exchange, a send and a take a message, and one more: 1, 3 and 5
// turns. Each rank enters once a turn. A replay takes none.
#[test]
fn a_run_takes_few_turns(rt: HostRuntime) {
    for (job, scene, least, most) in [
        ("composite", POINT, 1, 1),
        ("composite", TWO_RANKS, 2, 3 * 2),
        ("composite", THREE_RANKS, 3, 5 * 3),
        ("replay", THREE_RANKS, 0, 0),
    ] {
        let words = [job, "--strategy", "direct"];
        let entries = entries_of(&rt, rt.alloc(), &words, scene);
        let are_few = matches!(entries, Ok(Some(count)) if least <= count && count <= most);
        assert!(rt; are_few, "{scene}");
    }
}

/// Whether the two ranks of a scene met in the gate when it was composited with two workers.
fn meets<R: Threads + Sync>(rt: &R, alloc: Global) -> Result<bool, NoMemory> {
    let mut source = source_of(alloc, TWO_RANKS, NEVER)?;
    let mut notes = MemSink::new(alloc, 1024, 1024, Vec::new(alloc))?;
    let gate = MeetingGate::new();
    let status = run(
        rt,
        alloc,
        &["composite", "--workers", "2"],
        &mut source,
        &mut SureSink::new(),
        &mut notes,
        &mut MemWires::new(alloc),
        &gate,
    );
    Ok(status == Status::Ok && gate.have_met())
}

#[test]
fn a_run_with_two_workers_steps_ranks_at_the_same_time(rt: HostRuntime) {
    assert_eq!(rt; meets(&rt, rt.alloc()), Ok(true));
}
