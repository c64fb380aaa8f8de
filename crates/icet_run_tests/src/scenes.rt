//! Scenes of both versions of the text: their pictures, and the line of each fault.
use crate::runs::{PICTURE, POINT, Want, assert_came, came_of_front, came_of_scene, done, fault};
use icet_cli::Status;

/// Two triangles of two ranks that share an edge.
const SHARED_EDGE: &str =
    "icet-scene 1\nmode depth\nranks 2\ntile 0 0 2 2 0\ntri 0 0 0 5 10 20 30 255 32 0 5 10 20 30 255 0 32 5 10 20 30 255\ntri 1 32 0 5 40 50 60 255 32 32 5 40 50 60 255 0 32 5 40 50 60 255\nend\n";

/// The same picture, handed in as rows that were drawn elsewhere.
const READY_DRAWN: &str =
    "icet-scene 2\nmode depth\nranks 2\ntile 0 0 2 2 0\nspan 0 0 0 5 10 20 30 255\nspan 1 1 0 5 40 50 60 255\nspan 1 0 1 5 40 50 60 255 5 40 50 60 255\nend\n";

pub(crate) const EDGE_PICTURE: &[u8] =
    b"P7\nWIDTH 2\nHEIGHT 2\nDEPTH 4\nMAXVAL 255\nTUPLTYPE RGB_ALPHA\nENDHDR\n\x0a\x14\x1e\xff\x28\x32\x3c\xff\x28\x32\x3c\xff\x28\x32\x3c\xff";

/// Three reds, the last opaque, behind a rank that draws nothing.
const REDS: &str =
    "icet-scene 1\nmode blend\nranks 4\norder 0 1 2 3\ntile 0 0 1 1 0\npoint 1 0 0 0 0 0 0 128\npoint 2 0 0 0 1 0 0 128\npoint 3 0 0 0 100 0 0 255\nend\n";

/// Half a red in front of an opaque one, in 16 bits.
const DEEP_REDS: &str =
    "icet-scene 2\nmode blend\nranks 2\nmaxval 65535\norder 0 1\ntile 0 0 1 1 0\npoint 0 0 0 0 0 0 0 32768\npoint 1 0 0 0 100 0 0 65535\nend\n";

/// Two tiles side by side, which four ranks draw into.
pub(crate) const WALL: &str =
    "icet-scene 1\nmode depth\nranks 4\ntile 0 0 4 1 0\ntile 4 0 4 1 1\npoint 0 0 0 1 9 9 9 255\npoint 1 1 0 1 9 9 9 255\npoint 2 2 0 1 9 9 9 255\npoint 3 5 0 1 9 9 9 255\nend\n";

const WALL_PICTURES: &[u8] =
    b"P7\nWIDTH 4\nHEIGHT 1\nDEPTH 4\nMAXVAL 255\nTUPLTYPE RGB_ALPHA\nENDHDR\n\x09\x09\x09\xff\x09\x09\x09\xff\x09\x09\x09\xff\x00\x00\x00\x00P7\nWIDTH 4\nHEIGHT 1\nDEPTH 4\nMAXVAL 255\nTUPLTYPE RGB_ALPHA\nENDHDR\n\x00\x00\x00\x00\x09\x09\x09\xff\x00\x00\x00\x00\x00\x00\x00\x00";

/// Two tiles of one pixel that nobody draws into.
const TWO_TILES: &str = "icet-scene 1\nmode depth\nranks 2\ntile 0 0 1 1 0\ntile 1 0 1 1 1\nend\n";

const DIRECT: &[&str] = &["composite", "--strategy", "direct"];

const TREE: &[&str] = &["composite", "--strategy=sequential", "--single=tree"];

const REDUCE: &[&str] = &["composite", "--single=tree"];

const SWAP: &[&str] = &["composite", "--strategy=sequential", "--single=bswap"];

const THREE_STRANDS: &[&str] = &["composite", "--strands", "3"];

const MOST_STRANDS: &[&str] = &["composite", "--strands=64"];

const UPGRADE: &[&str] = &["upgrade"];

/// Words, a scene, and its pictures.
const COMPOSITES: &[(&[&str], &str, &[u8])] = &[
    (DIRECT, SHARED_EDGE, EDGE_PICTURE),
    (TREE, SHARED_EDGE, EDGE_PICTURE),
    (SWAP, SHARED_EDGE, EDGE_PICTURE),
    (SWAP, READY_DRAWN, EDGE_PICTURE),
    (THREE_STRANDS, SHARED_EDGE, EDGE_PICTURE),
    (MOST_STRANDS, WALL, WALL_PICTURES),
    (
        DIRECT,
        REDS,
        b"P7\nWIDTH 1\nHEIGHT 1\nDEPTH 4\nMAXVAL 255\nTUPLTYPE RGB_ALPHA\nENDHDR\n\x19\x00\x00\xff",
    ),
    (
        TREE,
        REDS,
        b"P7\nWIDTH 1\nHEIGHT 1\nDEPTH 4\nMAXVAL 255\nTUPLTYPE RGB_ALPHA\nENDHDR\n\x18\x00\x00\xff",
    ),
    (
        REDUCE,
        REDS,
        b"P7\nWIDTH 1\nHEIGHT 1\nDEPTH 4\nMAXVAL 255\nTUPLTYPE RGB_ALPHA\nENDHDR\n\x19\x00\x00\xff",
    ),
    (
        &["composite"],
        REDS,
        b"P7\nWIDTH 1\nHEIGHT 1\nDEPTH 4\nMAXVAL 255\nTUPLTYPE RGB_ALPHA\nENDHDR\n\x19\x00\x00\xff",
    ),
    (REDUCE, WALL, WALL_PICTURES),
    (
        DIRECT,
        DEEP_REDS,
        b"P7\nWIDTH 1\nHEIGHT 1\nDEPTH 4\nMAXVAL 65535\nTUPLTYPE RGB_ALPHA\nENDHDR\n\x00\x31\x00\x00\x00\x00\xff\xff",
    ),
    (DIRECT, WALL, WALL_PICTURES),
    (TREE, WALL, WALL_PICTURES),
    (SWAP, WALL, WALL_PICTURES),
    (
        TREE,
        "icet-scene 1\nmode depth\nranks 3\nbackground 1 2 3 4\ntile 0 0 2 1 2\nend\n",
        b"P7\nWIDTH 2\nHEIGHT 1\nDEPTH 4\nMAXVAL 255\nTUPLTYPE RGB_ALPHA\nENDHDR\n\x01\x02\x03\x04\x01\x02\x03\x04",
    ),
];

// By blending the joins show in the picture, since each is rounded down.
#[test]
fn each_mode_shows_its_composite(rt: HostRuntime) {
    for (words, scene, picture) in COMPOSITES {
        let came = came_of_scene(&rt, rt.alloc(), words, scene);
        assert_came(&rt, &came, done(picture), scene);
    }
}

/// A scene, and its text with its shapes ready drawn.
const UPGRADES: &[(&str, &str)] = &[
    (SHARED_EDGE, READY_DRAWN),
    (READY_DRAWN, READY_DRAWN),
    (
        "icet-scene 1\nmode depth\nranks 2\ntile 0 0 1 1 0\ntile 1 0 1 1 1\npoint 0 2 0 9 3 3 3 255\npoint 0 1 0 8 2 2 2 255\npoint 0 0 0 7 1 1 1 255\nend\n",
        "icet-scene 2\nmode depth\nranks 2\ntile 0 0 1 1 0\ntile 1 0 1 1 1\nspan 0 0 0 7 1 1 1 255 8 2 2 2 255\nend\n",
    ),
    (
        "icet-scene 1\nmode blend\nranks 2\nbackground 1 2 3 4\norder 1 0\ntile 1 0 3 1 0\ntile 0 0 3 1 1\npoint 1 0 0 0 9 0 0 9\npoint 1 2 0 0 0 0 0 0\npoint 1 3 0 0 5 0 0 9\nend\n",
        "icet-scene 2\nmode blend\nranks 2\nbackground 1 2 3 4\norder 1 0\ntile 1 0 3 1 0\ntile 0 0 3 1 1\nspan 1 0 0 0 9 0 0 9\nspan 1 3 0 0 5 0 0 9\nend\n",
    ),
];

// Each maximal run of a rank's fragments in a row is a span, also across the seam of two tiles; what no tile shows is
// left out.
#[test]
fn shapes_are_written_ready_drawn(rt: HostRuntime) {
    for (scene, written) in UPGRADES {
        let came = came_of_scene(&rt, rt.alloc(), UPGRADE, scene);
        assert_came(&rt, &came, done(written.as_bytes()), scene);
    }
}

// Each rank sends its whole image of one tile and takes the other's.
#[test]
fn two_tiles_are_replayed(rt: HostRuntime) {
    for (schedule, written) in [
        (
            "0,1,1,0,0,1,0,0,0,1,1",
            b"0 stalled\n1 moved\n1 stalled\n0 moved\n0 stalled\n1 moved\n0 moved\n0 moved\n0 done\n1 moved\n1 done\nfinished\n".as_slice(),
        ),
        ("0,2", b"0 stalled\n2 absent\nunfinished 0\n"),
    ] {
        let words = [
            "replay",
            "--strategy",
            "sequential",
            "--single",
            "tree",
            "--cap",
            "1",
            "--schedule",
            schedule,
        ];
        let came = came_of_scene(&rt, rt.alloc(), &words, TWO_TILES);
        assert_came(&rt, &came, done(written), schedule);
    }
}

/// A scene that is refused with this line.
fn refused(noted: &'static str) -> Want {
    fault(Status::SceneRefused, b"", noted)
}

#[test]
fn each_fault_has_its_line(rt: HostRuntime) {
    for (scene, noted) in [
        ("", "icet: missing head\n"),
        (
            "icet-scene 1\nmode blend\nranks 1\n",
            "icet: missing order\n",
        ),
        (
            "icet-scene 1\nmode depth\nranks 1\ntile 0 0 1 1 0\n",
            "icet: missing end\n",
        ),
        (
            "icet-scene 1\r\nmode depth\r\n",
            "icet: line 1: byte not allowed\n",
        ),
        ("icet-scene 3\n", "icet: line 1: number out of range\n"),
        (
            "icet-scene 1\nmode  depth\n",
            "icet: line 2: not a line of the format\n",
        ),
        (
            "icet-scene 1\nmode depth\nranks 65\n",
            "icet: line 3: number out of range\n",
        ),
        (
            "icet-scene 2\nmode depth\nranks 257\n",
            "icet: line 3: number out of range\n",
        ),
        (
            "icet-scene 2\nmode depth\nranks 256\nmaxval 1000\n",
            "icet: line 4: number out of range\n",
        ),
        (
            "icet-scene 1\nmode blend\nranks 3\norder 0 2 2\n",
            "icet: line 4: order is not each rank once\n",
        ),
        (
            "icet-scene 1\nmode depth\nranks 3\norder 0 1 2\n",
            "icet: line 4: out of place\n",
        ),
        (
            "icet-scene 1\nmode depth\nranks 2\ntile 0 0 1 1 0\ntile 1 0 1 1 0\n",
            "icet: line 5: display rank already taken\n",
        ),
        (
            "icet-scene 1\nmode depth\nranks 1\ntile 0 0 1 1 0\npoint 0 0 0 5 200 0 0 100\nend\n",
            "icet: line 5: colour not premultiplied\n",
        ),
        (
            "icet-scene 1\nmode depth\nranks 1\ntile 0 0 1 1 0\npoint 0 0 0 16777215 10 20 30 255\nend\n",
            "icet: line 5: number out of range\n",
        ),
        (
            "icet-scene 1\nmode depth\nranks 2\ntile 0 0 2 2 0\nspan 0 0 0 5 10 20 30 255\nend\n",
            "icet: line 5: not a line of the format\n",
        ),
        (
            "icet-scene 2\nmode depth\nranks 2\ntile 0 0 2 2 0\nspan 0 16383 0 5 10 20 30 255 5 10 20 30 255\nend\n",
            "icet: line 5: number out of range\n",
        ),
        (
            "icet-scene 1\nmode depth\nranks 64\ntile 0 0 1024 1025 0\nend\n",
            "icet: scene too large\n",
        ),
    ] {
        let came = came_of_scene(&rt, rt.alloc(), DIRECT, scene);
        assert_came(&rt, &came, refused(noted), scene);
    }
}

/// The line that refuses the first bytes of the scene of one point, so many of them and fewer than 77: lines 1 to 5
/// have their newlines at 12, 23, 31, 46 and 73.
fn line_of_cut(count: usize) -> &'static str {
    match count {
        0 => "icet: missing head\n",
        1..=11 => "icet: line 1: not a line of the format\n",
        12..=13 => "icet: missing mode\n",
        14..=22 => "icet: line 2: not a line of the format\n",
        23..=24 => "icet: missing ranks\n",
        25..=30 => "icet: line 3: not a line of the format\n",
        31..=32 => "icet: missing tile\n",
        33..=45 => "icet: line 4: not a line of the format\n",
        46..=47 => "icet: missing end\n",
        48..=70 => "icet: line 5: not a line of the format\n",
        71..=72 => "icet: line 5: colour not premultiplied\n",
        73..=74 => "icet: missing end\n",
        _ => "icet: line 6: not a line of the format\n",
    }
}

// The last line's newline may be missing.
#[test]
fn each_cut_of_a_scene_has_its_line(rt: HostRuntime) {
    for count in 0..=78 {
        let noted = line_of_cut(count);
        let want = if count < 77 {
            refused(noted)
        } else {
            done(PICTURE)
        };
        let came = came_of_front(&rt, rt.alloc(), DIRECT, POINT, count);
        assert_came(&rt, &came, want, noted);
    }
}
