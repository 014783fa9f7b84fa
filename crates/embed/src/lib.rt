// The library for C: numbers pass as themselves, bytes as a pointer and a length.
#![tactic(auto)]

ghost use Rattle.std.specs.Prelude.{◌≡◌};
ghost use Rattle.checkword.specs.Register.{check_register};
ghost use Rattle.section.specs.Rules.{refusal};
ghost use Rattle.embed.specs.Numbers.{number_of};

use section::Section;

#[unsafe(no_mangle)]
pub extern "C" fn kinvouzel_check_word(bytes: &[u8]) -> u32
    ensures { result ≡ check_register bytes.now }
{
    checkword::check_word(bytes)
}

// The number of the rule that a section breaks first, or 0: C has none of our enums.
#[unsafe(no_mangle)]
pub extern "C" fn kinvouzel_section_refusal(bytes: &[u8]) -> u32
    ensures { result ≡ number_of (refusal bytes.now) }
{
    Section::read(bytes)
        .refusal()
        .map_or(0, |refusal| u32::from(refusal.number()))
}
