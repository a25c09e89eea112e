use mesh_algo::SeqWindow;
use std::mem::size_of;

#[test]
fn a_window_is_a_copy_of_at_most_sixteen_bytes(rt: HostRuntime) {
    let mut window = SeqWindow::new();
    window.see(7);
    let copy = window;
    window.see(8);
    assert_eq!(rt; (copy.newest(), window.newest()), (Some(7), Some(8)));
    assert!(rt; size_of::<SeqWindow>() <= 16);
}
