ghost use Rattle.std.specs.Prelude.{◌≡◌};
ghost use Rattle.headways.specs.Sections.{SectionGapIsGreatest};
ghost use Rattle.headways.specs.Rules.{held, sections_rule, sections_gap, table_rule, table_gap, SectionsRuleIsLawful, TableRuleIsLawful, TableIsOfItsLines, ReadMovementsHaveSteps, SharingIsClashing};

use crate::by_sections::BySections;
use crate::by_table::ByTable;
use rules::clash::Clash;
use rules::headway::Headway;
use times::time::Time;

// The rule by sections means the pairs and the gaps that its definitions say.
pub fn sections_by_definition<K: Time>(rule: &BySections<'_, K>)
    ensures clash { ⟦<BySections<'static, K> as Clash>⟧.clash rule.now ≡ sections_rule rule.now.book.book.now rule.now.book.memory.now }
    ensures gap { ⟦<BySections<'static, K> as Headway>⟧.headway rule.now ≡ sections_gap K.Time.made (held rule.now.book.book.now rule.now.book.memory.now) }
{}

// The rule by table means the pairs and the gaps that its definitions say.
pub fn table_by_definition<K: Time>(rule: &ByTable<'_, K>)
    ensures clash { ⟦<ByTable<'static, K> as Clash>⟧.clash rule.now ≡ table_rule rule.now.book.book.now rule.now.book.memory.now }
    ensures gap { ⟦<ByTable<'static, K> as Headway>⟧.headway rule.now ≡ table_gap K.Time.origin K.Time.made (held rule.now.book.book.now rule.now.book.memory.now) }
{}

// Whatever the memory holds, both rules keep the laws.
pub fn book_rules_are_lawful()
    ensures sections { SectionsRuleIsLawful }
    ensures table { TableRuleIsLawful }
{}

// The gap by sections is the greatest difference over all sections that two movements share.
pub fn section_gap_is_greatest()
    ensures { SectionGapIsGreatest }
{}

// In a book that was read from lines, every movement has a step.
pub fn read_movements_have_steps()
    ensures { ReadMovementsHaveSteps }
{}

// Where every movement has a step, two movements clash by sections exactly when they share a section.
pub fn sharing_is_clashing()
    ensures { SharingIsClashing }
{}

// The table of a book that was read from lines is the table of those lines.
pub fn table_is_of_its_lines()
    ensures { TableIsOfItsLines }
{}
