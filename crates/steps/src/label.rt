// What a step shows to the outside.
#[derive(Clone, Copy)]
pub struct Label {
    // The action: 0 is silent, 0x01 to 0x3F are names, a name plus 0x40 is its co-name.
    // A byte and no enum: a system may show any, so an enum of the three would be narrower and ask
    // more of it.
    pub action: u8,
}
