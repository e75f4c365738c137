use super::picks_of;
use std::test::Fail;

#[test]
fn picks_are_the_high_halves_after_the_seed(rt: HostRuntime) -> Result<(), Fail> {
    let cases = [
        (0, [0, 0, 0]),
        (1, [1_481_765_933, 3_232_861_391, 3_417_699_910]),
        (u64::MAX, [2_813_201_362, 1_062_105_904, 877_267_385]),
    ];
    for (seed, picks) in cases {
        assert_eq!(rt; picks_of(rt.alloc(), seed, 3)?.as_slice(), picks.as_slice());
    }
    assert!(rt; picks_of(rt.alloc(), 1, 0)?.is_empty());
    Ok(())
}
