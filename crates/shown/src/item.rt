// Items: a name, a value, and the byte behind it.
ghost use Rattle.shown.specs.Text.{Fits};
ghost use Rattle.shown.specs.Item.{item};

use crate::text::{Shown, put_text};
use lines::Page;

pub fn put_item<V: Shown>(page: &mut Page, name: &[u8], value: &V, last: u8)
    ensures { Fits page.old (item name.now (V.text_of value.now) last) page.new }
{
    put_text(page, name);
    value.put(page);
    put_text(page, &[last]);
}
