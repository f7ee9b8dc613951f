//! Rectangles and words of a picture.

ghost use Rattle.std.specs.Prelude.{◌≡◌, ◌++◌, OnOk, decimal};
ghost use Rattle.pr_lens_chart.specs.Charts.{attribute_text, area_text, begin_text, words_text};

use pr_lens_text::{put, put_counted, put_number};
use std::alloc::AllocError;

/// A rectangle.
#[derive(Clone, Copy)]
pub struct Area {
    pub x: usize,
    pub y: usize,
    pub width: usize,
    pub height: usize,
}

/// Adds an attribute that is a number.
#[tactic(auto, unfolding(crate::specs::Charts::attribute_text))]
fn put_attribute(text: &mut Vec<u8>, name: &str, number: usize) -> Result<(), AllocError>
    ensures { OnOk result (text.new.items ≡ text.old.items ++ attribute_text name.now number) }
{
    put(text, " ")?;
    put(text, name)?;
    put_counted(text, "=\"", number)?;
    put(text, "\"")
}

/// Adds a rectangle, whose colour follows; it is to be ended.
#[tactic(auto, unfolding(crate::specs::Charts::area_text))]
pub fn put_area(text: &mut Vec<u8>, area: Area) -> Result<(), AllocError>
    ensures { OnOk result (text.new.items ≡ text.old.items ++ area_text area) }
{
    put(text, "<rect")?;
    put_attribute(text, "x", area.x)?;
    put_attribute(text, "y", area.y)?;
    put_attribute(text, "width", area.width)?;
    put_attribute(text, "height", area.height)
}

/// Begins a text of a class at a place; it is to be ended.
#[tactic(auto, unfolding(crate::specs::Charts::begin_text))]
pub fn begin_words(text: &mut Vec<u8>, class: &str, x: usize, y: usize) -> Result<(), AllocError>
    ensures { OnOk result (text.new.items ≡ text.old.items ++ begin_text class.now x y) }
{
    put(text, "<text class=\"")?;
    put(text, class)?;
    put(text, "\"")?;
    put_attribute(text, "x", x)?;
    put_attribute(text, "y", y)?;
    put(text, ">")
}

/// Adds a text of a class at a place.
#[tactic(auto, unfolding(crate::specs::Charts::words_text))]
pub fn put_words(
    text: &mut Vec<u8>,
    class: &str,
    x: usize,
    y: usize,
    words: &str,
) -> Result<(), AllocError>
    ensures { OnOk result (text.new.items ≡ text.old.items ++ words_text class.now x y words.now) }
{
    begin_words(text, class, x, y)?;
    put(text, words)?;
    put(text, "</text>\n")
}

/// Adds a number of a class at a place.
#[tactic(auto, unfolding(crate::specs::Charts::words_text))]
pub fn put_digits(
    text: &mut Vec<u8>,
    class: &str,
    x: usize,
    y: usize,
    number: usize,
) -> Result<(), AllocError>
    ensures { OnOk result (text.new.items ≡ text.old.items ++ words_text class.now x y (decimal number)) }
{
    begin_words(text, class, x, y)?;
    put_number(text, number)?;
    put(text, "</text>\n")
}
