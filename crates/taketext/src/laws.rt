//! Laws of texts: each function does nothing, and its contract is the law.

ghost use Rattle.taketext.specs.Fronts.{WhiteSpaceEndsWords, CommentsSayNothing, SpelledBehindComments, DeclaredBehindComments};
ghost use Rattle.taketext.specs.Names.{SourcesAreWorded};
ghost use Rattle.taketext.specs.Origins.{TellsOnce, PrintedTells};

/// White space ends a word: the words of a text are those in front of a white byte, and then those behind it.
pub fn white_space_ends_words()
    ensures { WhiteSpaceEndsWords }
{}

/// A comment says nothing: `$(`, lawful bytes between white space, of whose words none has `$(` or `$)` in it, and `$)`.
pub fn comments_say_nothing()
    ensures { CommentsSayNothing }
{}

/// A text spells a database just where it spells it behind comments and white space.
pub fn spelled_behind_comments()
    ensures { SpelledBehindComments }
{}

/// A text declares a source just where it declares it behind comments and white space.
pub fn declared_behind_comments()
    ensures { DeclaredBehindComments }
{}

/// Each symbol of a source is a token without `$`, each label is a label token, and no two labels are equal.
pub fn sources_are_worded()
    ensures { SourcesAreWorded }
{}

/// A text tells one path, and one wish.
pub fn tells_once()
    ensures { TellsOnce }
{}

/// What is printed of a library tells the path, as it is shown, and the wish by which it was taken.
pub fn printed_tells()
    ensures { PrintedTells }
{}
