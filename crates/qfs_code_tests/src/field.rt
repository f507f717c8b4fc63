//! Known values of the field of 256 elements.

use qfs_galois::{add_scaled, horner_step, inv, mul, pow2};

#[test]
fn powers_of_two(rt: HostRuntime) {
    let known = [
        (8, 0x1d),
        (9, 0x3a),
        (10, 0x74),
        (11, 0xe8),
        (12, 0xcd),
        (13, 0x87),
        (14, 0x13),
        (15, 0x26),
        (16, 0x4c),
        (17, 0x98),
        // A multiple of 255.
        (4_294_967_295, 1),
    ];
    for (exponent, power) in known {
        assert_eq!(rt; pow2(exponent), power, "2 to the power of {exponent}");
    }
}

#[test]
fn sums_of_powers(rt: HostRuntime) {
    let mut sum = 0;
    let mut sum_of_squares = 0;
    for i in 0..6u32 {
        sum ^= pow2(i);
        sum_of_squares ^= pow2(2 * i);
    }
    assert_eq!(rt; sum, 0x3f);
    assert_eq!(rt; sum_of_squares, 0x3c);
}

#[test]
fn products_and_inverses(rt: HostRuntime) {
    let products = [mul(0x80, 2), mul(3, 3), mul(inv(0x1d), 0x1d)];
    assert_eq!(rt; products, [0x1d, 5, 1]);
}

#[test]
fn adds_multiples(rt: HostRuntime) {
    let mut sums = [1, 1, 1];
    add_scaled(&mut sums, &[0, 1, 0x80], 2);
    assert_eq!(rt; sums, [1, 3, 0x1c]);
}

#[test]
fn steps_of_each_parity_slot(rt: HostRuntime) {
    let parts = [[2, 0, 7], [1, 1, 1], [0, 0, 0]];
    let wanted = [[3, 0x80, 0], [7, 0x1c, 1], [0x1c, 0x70, 4]];
    let mut sums = [1, 0x80, 7];
    for number in 0..3u8 {
        horner_step(&mut sums, &parts[number as usize], number);
        assert_eq!(rt; sums, wanted[number as usize], "of parity slot {number}");
    }
}
