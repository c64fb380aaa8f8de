//! The demonstration: what it writes depends on its seed and the strands, and on no other option.
use crate::runs::{assert_came, came_of_scene, done};

/// The summary of the scene of seed 1. Its numbers come from a program of its own that draws that scene's triangles by the
/// rules of the formats.
const SUMMARY: &[u8] =
    b"tile 0 1920 1080 84605 263881509 247977602 267258173 507193725\nweight 49906616\n";

/// The same of images that are dealt out to 16 strands, which have more runs.
const IN_STRANDS: &[u8] =
    b"tile 0 1920 1080 84605 263881509 247977602 267258173 507193725\nweight 57236416\n";

/// Words of the demonstration, with its summary.
const DEMONSTRATIONS: &[(&[&str], &[u8])] = &[
    (&["demo"], SUMMARY),
    (
        &[
            "demo",
            "--strategy",
            "direct",
            "--cap",
            "1",
            "--workers",
            "1",
        ],
        SUMMARY,
    ),
    (
        &["demo", "--seed", "1", "--strands", "16", "--workers", "4"],
        IN_STRANDS,
    ),
    (
        &["--strands=16", "demo", "--workers=1", "--cap=64"],
        IN_STRANDS,
    ),
];

#[test]
fn the_demonstration_is_summed_up(rt: HostRuntime) {
    for (words, summary) in DEMONSTRATIONS {
        let came = came_of_scene(&rt, rt.alloc(), words, "");
        assert_came(&rt, &came, done(summary), "demonstration");
    }
}
