//! Numbers among the words of the command line.

use qfs_first::read_seed;

#[test]
fn seeds_have_one_spelling(rt: HostRuntime) {
    assert_eq!(rt; read_seed("0"), Some(0));
    assert_eq!(rt;
        read_seed("18446744073709551615"),
        Some(18_446_744_073_709_551_615)
    );
    assert_eq!(rt; read_seed("18446744073709551616"), None, "2^64");
    assert_eq!(rt; read_seed("07"), None, "a leading zero");
    assert_eq!(rt; read_seed("+7"), None, "a sign");
    assert_eq!(rt; read_seed(""), None, "no digit");
}
