//! Parity of known bytes, and every way to restore a slot from six others.

use qfs_base::mask::Mask;
use qfs_base::sizes::SLOTS;
use qfs_code::{encode, encode_slot, restore};

/// The bytes of a slot in the test of all masks.
const SIZE: usize = 4;

#[test]
fn parity_of_one_byte(rt: HostRuntime) {
    let mut six = [0; 96];
    six[80] = 0x80;
    let mut parity = [1; 48];
    encode(&six, 16, &mut parity);
    let mut expected = [0; 48];
    expected[0] = 0x80;
    expected[16] = 0xcd;
    expected[32] = 0x98;
    assert_eq!(rt; parity, expected);
    let mut second = [1; 16];
    encode_slot(&six, 16, 1, &mut second);
    assert_eq!(rt; second.as_slice(), &expected[16..32]);
}

#[test]
fn six_slots_give_each_slot(rt: HostRuntime) {
    let whole = code_words();
    for bits in 0..512u16 {
        let have = mask_of(bits);
        if have.count() == 6 {
            let damaged = without(&whole, have);
            for want in 0..SLOTS {
                let mut out = [0; SIZE];
                restore(have, &damaged, SIZE, want, &mut out);
                let start = want as usize * SIZE;
                assert_eq!(rt;
                    out.as_slice(),
                    &whole[start..start + SIZE],
                    "slot {want} from masks {bits}"
                );
            }
        }
    }
}

/// Nine slots: some bytes, and their parity.
fn code_words() -> [u8; 36] {
    let mut whole = [0; 36];
    let mut state = 1u32;
    for i in 0..24usize {
        state = state.wrapping_mul(1_664_525).wrapping_add(1_013_904_223);
        whole[i] = (state >> 24) as u8;
    }
    let mut parity = [0; 12];
    encode(&whole[..24], SIZE, &mut parity);
    whole[24..].copy_from_slice(&parity);
    whole
}

/// The set of the slots whose bits are set.
fn mask_of(bits: u16) -> Mask {
    let mut mask = Mask::none();
    for slot in 0..SLOTS {
        if (bits >> slot) & 1 == 1 {
            mask = mask.with(slot);
        }
    }
    mask
}

/// The slots with other bytes in place of those outside the mask.
fn without(whole: &[u8; 36], have: Mask) -> [u8; 36] {
    let mut damaged = *whole;
    for slot in 0..SLOTS {
        if !have.contains(slot) {
            let start = slot as usize * SIZE;
            damaged[start..start + SIZE].fill(0xee);
        }
    }
    damaged
}
