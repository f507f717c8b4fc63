//! The bytes of recipes.

use qfs_recipe::{Form, Recipe, RecipeCalls};

#[test]
fn a_pattern_has_its_known_bytes(rt: HostRuntime) {
    let pattern = Recipe {
        form: Form::Pattern { start: 1, len: 4 },
    };
    let mut bytes = [0; 4];
    if pattern.len() == 4 {
        pattern.fill(0, &mut bytes);
    }
    assert_eq!(rt; bytes, [0x9e, 0x3c, 0xda, 0x78]);
}
