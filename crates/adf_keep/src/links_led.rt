// Which links the chains of links lead to.

ghost use Rattle.std.specs.Prelude.{◌≡◌, ◌≤◌, ◌<◌, ℕ, List, IfOk, length, slice_index, true};
ghost use Rattle.adf_keep.specs.Links.{AreLed, IsInLinkChain};

use crate::held::Held;
use crate::links_words::{NEXT_LINK, ORIGINAL};
use adf_base::NoMemory;
use std::alloc::Global;

/// The header whose chain of links leads to the link in block `b`; 0 if none is known.
pub fn led_from(led: &[u32], b: u32) -> u32
    ensures { result ≡ slice_index led.now b }
{
    led.get(b as usize).copied().unwrap_or(0)
}

// Whether nothing is known yet to lead to a link.
fn is_new(led: &Vec<u32>, b: u32) -> bool
    ensures { result ≡ true → (1 ≤ b) × (b < length led.now.items) }
{
    b != 0 && (b as usize) < led.len() && led[b as usize] == 0
}

// Notes that the chain of header `t` leads to a link.
#[tactic(auto, using(crate::proofs::LinksLed::led_more))]
fn note_led(led: &mut Vec<u32>, b: u32, t: u32)
    requires { b < length led.old.items }
    ensures { (image : List ℕ) → AreLed image led.old.items → IsInLinkChain image t b → AreLed image led.new.items }
{
    led[b as usize] = t;
}

// Follows the chain of links of header `t`, up to one that is noted already.
fn follow_links(image: &Held<'_>, led: &mut Vec<u32>, t: u32)
    ensures { AreLed image.now led.old.items → AreLed image.now led.new.items }
{
    let mut b = image.word(t, NEXT_LINK);
    for _ in 0..led.len() {
        if !is_new(led, b) {
            return;
        }
        note_led(led, b, t);
        b = image.word(b, NEXT_LINK);
    }
}

// A table of no links.
fn none_led(alloc: Global, count: u32) -> Result<Vec<u32>, NoMemory>
    ensures { (image : List ℕ) → IfOk result (λ led. AreLed image led.items) }
{
    Ok(vec![in alloc; 0; count as usize]?)
}

/// Of each link the header whose chain of links leads to it, of the headers that the links in these blocks name; 0 where none
/// does. `NoMemory` if an allocation fails.
pub fn led_links(alloc: Global, image: &Held<'_>, owns: &[u32]) -> Result<Vec<u32>, NoMemory>
    ensures { IfOk result (λ led. AreLed image.now led.items) }
{
    let mut led = none_led(alloc, image.blocks())?;
    for own in owns {
        let target = image.word(*own, ORIGINAL);
        if target != 0 {
            follow_links(image, &mut led, target);
        }
    }
    Ok(led)
}
