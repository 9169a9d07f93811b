// Actions, names and co-names.
ghost use Rattle.std.specs.Prelude.{◌≡◌, ◌&&◌, ◌+◌, nat_eq};
ghost use Rattle.actions.specs.Action as actions;

// Names are 0x01 to 0x3F.
pub fn is_name(byte: u8) -> bool
    ensures { result ≡ actions.is_name byte }
{
    1 <= byte && byte <= 0x3F
}

// An action is silent, a name, or a co-name: its name and 0x40 more.
pub fn is_action(byte: u8) -> bool
    ensures { result ≡ actions.is_action byte }
{
    byte == 0 || is_name(byte) || 0x41 <= byte && byte <= 0x7F
}

// The name that an action shows; 0, which is none, of the silent one.
pub fn name_of(action: u8) -> u8
    ensures { result ≡ actions.name_of action }
{
    if action <= 0x3F {
        action
    } else {
        action - 0x40
    }
}

// Are they a name and its co-name, in either order?
pub fn complementary(a: u8, b: u8) -> bool
    ensures { result ≡ actions.complementary a b }
{
    is_co_name_of(a, b) || is_co_name_of(b, a)
}

// Is the second the co-name of the first, a name?
fn is_co_name_of(name: u8, co_name: u8) -> bool
    ensures { result ≡ (actions.is_name name && nat_eq co_name (name + 64)) }
{
    is_name(name) && co_name == name + 0x40
}
