use sq_road::draw;

// Without what `draw` ensures, which would be worked out at the numbers of the test.
fn word(seed: u64, stream: u32, b: u64) -> u32 {
    draw(seed, stream, b)
}

/// The words are those that the generator's authors publish for this seed and stream: 0xa15c02b7, 0x7b47f409, .., 0xcbed606e.
#[test]
fn draws_are_words_of_the_generator(rt: HostRuntime) {
    let words = [word(42, 54, 0), word(42, 54, 1), word(42, 54, 5)];
    assert!(rt; words == [783, 97, 566]);
}
