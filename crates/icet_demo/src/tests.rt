//! The first triangle of seed 42 on stream 54, for which the generator's reference implementation prints the words
//! a15c02b7, 7b47f409, ba1d3330, 83d2f293, bfa4784b and cbed606e.
use crate::demo_scene;
use icet_base::Rank;
use icet_raster::Shape;

#[test]
fn the_first_words_make_the_first_corner(rt: HostRuntime) {
    let Ok(scene) = demo_scene(rt.alloc(), 42) else {
        return assert!(rt; false, "no memory");
    };
    let shapes = scene.shapes.as_slice();
    assert_eq!(rt; shapes.len(), 400);
    assert!(rt; shapes[24].0 == Rank(0) && shapes[25].0 == Rank(1) && shapes[399].0 == Rank(15));
    let Shape::Tri { corners } = &shapes[0].1 else {
        return assert!(rt; false, "no triangle");
    };
    let first = corners[0];
    assert_eq!(rt;
        first.x,
        (16 * (0xa15c_02b7u32 % 1920) + 0xba1d_3330u32 % 8192) as i32 - 4096
    );
    assert_eq!(rt;
        first.y,
        (16 * (0x7b47_f409u32 % 1080) + 0x83d2_f293u32 % 8192) as i32 - 4096
    );
    assert_eq!(rt; first.paint.z(), 0xbfa4_784bu32 % 16_777_215);
    assert_eq!(rt; first.paint.r(), 0x6e);
}
