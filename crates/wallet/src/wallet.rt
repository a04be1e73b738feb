// A wallet over a store: covers, keys, and levels by their number.
use crate::layout::Layout;

mod block_calls;
mod key_calls;
mod laying_out;

#[derive(Drop)]
pub struct Wallet<S> {
    store: S,
    layout: Option<Layout>,
    chosen: Option<usize>,
}
