use grammar::Declaration;
use product::Interface;
use tokens::Token;

// A unit as it is worked out: its tokens, its declarations, and the interfaces of its imports.
#[derive(Clone, Copy)]
pub struct Unit<'a> {
    pub tokens: &'a [Token],
    pub own: &'a [Declaration],
    pub imports: &'a [Interface],
}
