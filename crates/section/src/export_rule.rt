// Rule 7, on an export's words (swizzle form).
ghost use Rattle.std.specs.Prelude.{◌≡◌};
ghost use Rattle.formats.specs.Fields.{◌of◌, «TYPE», ARRAY_BASE, BURST_COUNT};
ghost use Rattle.section.specs.Rules.{pixel_target, vertex_target, bad_target, bad_selectors, bad_export_register, export_rule};

use bits::read;
use card::Kind;
use formats::fields;

#[tactic(auto, unfolding(crate::specs::Rules::export_rule))]
pub(crate) fn is_bad_export_pair(kind: Kind, gprs: u32, low: u32, high: u32) -> bool
    ensures { result ≡ export_rule kind gprs low high }
{
    is_bad_target(kind, low, high) || has_bad_selector(high) || is_bad_register(gprs, low, high)
}

// Where the export goes, by TYPE, ARRAY_BASE and BURST_COUNT.
#[tactic(auto, unfolding(crate::specs::Rules::bad_target))]
fn is_bad_target(kind: Kind, low: u32, high: u32) -> bool
    ensures { result ≡ bad_target kind («TYPE» of low) (ARRAY_BASE of low) (BURST_COUNT of high) }
{
    match kind {
        Kind::Pixel => !is_pixel_target(low, high),
        Kind::Vertex => !is_vertex_target(low, high),
        Kind::Geometry => true,
    }
}

// A colour target, or the depth target, which takes no burst.
#[tactic(auto, unfolding(crate::specs::Rules::pixel_target))]
fn is_pixel_target(low: u32, high: u32) -> bool
    ensures { result ≡ pixel_target («TYPE» of low) (ARRAY_BASE of low) (BURST_COUNT of high) }
{
    let base = read(low, fields::ARRAY_BASE);
    let burst = read(high, fields::BURST_COUNT);
    read(low, fields::TYPE) == 0 && (base + burst <= 7 || base == 61 && burst == 0)
}

// A position, or a parameter.
#[tactic(auto, unfolding(crate::specs::Rules::vertex_target))]
fn is_vertex_target(low: u32, high: u32) -> bool
    ensures { result ≡ vertex_target («TYPE» of low) (ARRAY_BASE of low) (BURST_COUNT of high) }
{
    let base = read(low, fields::ARRAY_BASE);
    let last = base + read(high, fields::BURST_COUNT);
    match read(low, fields::TYPE) {
        1 => 60 <= base && last <= 63,
        2 => last <= 31,
        _ => false,
    }
}

// Selector 6 in any of SEL_X, SEL_Y, SEL_Z, SEL_W.
#[tactic(auto, unfolding(crate::specs::Rules::bad_selectors))]
fn has_bad_selector(high: u32) -> bool
    ensures { result ≡ bad_selectors high }
{
    read(high, fields::SEL_X) == 6
        || read(high, fields::SEL_Y) == 6
        || read(high, fields::SEL_Z) == 6
        || read(high, fields::SEL_W) == 6
}

// The last of the registers read, RW_GPR plus the burst. A relative one (RW_REL) is not named directly.
#[tactic(auto, unfolding(crate::specs::Rules::bad_export_register))]
fn is_bad_register(gprs: u32, low: u32, high: u32) -> bool
    ensures { result ≡ bad_export_register gprs low high }
{
    let last = read(low, fields::RW_GPR) + read(high, fields::BURST_COUNT);
    read(low, fields::RW_REL) == 0 && gprs <= last
}
