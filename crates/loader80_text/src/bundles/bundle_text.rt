//! A bundle split into its three texts.
ghost use Rattle.std.specs.Prelude.{◌≡◌, None, Some, IfOk};
ghost use Rattle.std.specs.Option.{option_map};
ghost use Rattle.loader80_text.specs.BundleText.{bundle_texts, sides_of, texts_of};
ghost use Rattle.image80.specs.Lines.{parts};

use image80::lines::first_line;
use loader80::digits::bytes_of_digits;
use std::alloc::{AllocError, Global};

/// The three texts of a bundle: the bytes of the image, the regions and the inputs.
#[derive(Drop)]
pub struct BundleTexts<'a> {
    /// The object file of the image, as bytes.
    pub image: Vec<u8>,
    /// The regions text.
    pub regions: &'a [u8],
    /// The text of the inputs.
    pub inputs: &'a [u8],
}

/// Splits a bundle into its three texts: the image in hexadecimal digits of either case on the first line, then the
/// regions up to the first line that is exactly `INPUTS`, then the inputs. `None` if the first line is something else
/// or no line is `INPUTS`.
pub fn part_bundle(alloc: Global, bundle: &[u8]) -> Result<Option<BundleTexts<'_>>, AllocError>
    ensures { IfOk result (λ texts. option_map texts_of texts ≡ bundle_texts bundle.now) }
{
    let Some((line, rest)) = first_line(bundle) else {
        return Ok(None);
    };
    let Some((regions, inputs)) = split_at_inputs(rest) else {
        return Ok(None);
    };
    let Some(image) = bytes_of_digits(alloc, line)? else {
        return Ok(None);
    };
    Ok(Some(BundleTexts {
        image,
        regions,
        inputs,
    }))
}

/// The line between the regions and the inputs, without its line feed.
const INPUTS: &[u8] = b"INPUTS";

/// The text before the first line that is exactly `INPUTS`, and the text after it; `None` if there is no such line.
fn split_at_inputs(text: &[u8]) -> Option<(&[u8], &[u8])>
    ensures { option_map (λ (before, after). record { before = before.now; after = after.now }) result
        ≡ sides_of (parts text.now) }
{
    let mut at = 0;
    while let Some((line, rest)) = first_line(&text[at..]) {
        if line == INPUTS {
            return Some((&text[..at], rest));
        }
        at += line.len() + 1;
    }
    None
}
