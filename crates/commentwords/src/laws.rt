//! Examples of words of comments: functions without a body, whose contracts are the examples.

ghost use Rattle.commentwords.specs.Examples.{DescriptionsChangeBehindTilde, MarkupChangesQuoted, TypesettingChangesOneLabel};

/// In a description a label behind `~` is spoken of, and a quoted one isn't.
pub fn descriptions_change_behind_tilde()
    ensures { DescriptionsChangeBehindTilde }
{}

/// In markup for verifiers each quoted word speaks of a label, and no other does.
pub fn markup_changes_quoted()
    ensures { MarkupChangesQuoted }
{}

/// Of definitions for typesetting `exthtmllabel` names a label, and `htmldef` a symbol.
pub fn typesetting_changes_one_label()
    ensures { TypesettingChangesOneLabel }
{}
