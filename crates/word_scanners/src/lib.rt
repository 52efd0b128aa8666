// A rule as a scanner, by the words that its states take. What its table, masks and filter have to meet is a fact of its
// type, which whoever makes one proves.
#![tactic(auto)]

ghost use Rattle.prefilter.specs.Soundness.{PrefilterSound};
ghost use Rattle.rule_part.specs.RulePart.{automaton_of_rule};
ghost use Rattle.shift_and_step.specs.Stepping.{automaton_of, TableFits};
ghost use Rattle.wide_scan.specs.Running.{RuleSteps, RuleFits};
ghost use Rattle.word_scanners.specs.Runners.{one_word, four_words};

use piece_stepping::{Scanned, Scanner};
use prefilter::Prefilter;
use shift_and_step::Masks;
use shift_and_wide::Wide;
use wide_prefilter::WidePrefilter;
use wide_scan::WideRun;

// A rule in one word, and the prefilter chosen for it.
#[derive(Drop)]
pub struct OneWord<'a> {
    pub table: &'a [u64],
    pub masks: Masks,
    pub filter: Prefilter,
    pub ghost table_fits: { TableFits table.now masks },
    pub ghost prefilter_sound: { PrefilterSound table.now masks.repeats masks.optional masks.top filter },
}

impl Scanner for OneWord<'_> {
    type State = u64;

    ghost runner = { λ s. one_word (automaton_of s.table.now s.masks) };

    fn scan(&self, d: u64, base: u32, text: &[u8], ends: &mut [u32]) -> Scanned<u64> {
        let r = shift_and_scan::scan_text(self.table, self.masks, self.filter, d, base, text, ends);
        Scanned {
            d: r.d,
            count: r.count,
        }
    }
}

// A rule in four words, and the way chosen for it. Table and masks stay where they are, in the rule's part of a scan value.
#[derive(Drop)]
pub struct FourWords<'a> {
    pub rule: &'a [u64],
    pub filter: WidePrefilter,
    pub ghost rule_fits: { RuleFits rule.now filter },
}

impl Scanner for FourWords<'_> {
    type State = Wide;

    ghost runner = { λ s. four_words (automaton_of_rule s.rule.now) };

    fn scan(&self, d: Wide, base: u32, text: &[u8], ends: &mut [u32]) -> Scanned<Wide> {
        let start = WideRun {
            d,
            at: base,
            count: 0,
        };
        let r = wide_scan::step_text(self.rule, self.filter, start, text, ends);
        Scanned {
            d: r.d,
            count: r.count,
        }
    }
}

// The same for a text so short that no way is chosen for it.
#[derive(Drop)]
pub struct Unfiltered<'a> {
    pub rule: &'a [u64],
    pub ghost rule_steps: { RuleSteps rule.now },
}

impl Scanner for Unfiltered<'_> {
    type State = Wide;

    ghost runner = { λ s. four_words (automaton_of_rule s.rule.now) };

    fn scan(&self, d: Wide, base: u32, text: &[u8], ends: &mut [u32]) -> Scanned<Wide> {
        let start = WideRun {
            d,
            at: base,
            count: 0,
        };
        let r = wide_scan::step_short(self.rule, start, text, ends);
        Scanned {
            d: r.d,
            count: r.count,
        }
    }
}
