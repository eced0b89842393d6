//! What holds of what is answered for three texts, whatever calls are made, and of the text of inputs. A law is ensured by a
//! function that does nothing: a layer above that calls it has the law in its proof.

ghost use Rattle.loader80.specs.FirstLineLaws.{BadLineIsTheFirst};
ghost use Rattle.loader80.specs.SendsLaws.{WrittenAnswersAreSent, PrefixesAreSent};

/// A law: if three texts are within the limit and the whole text of their reply is appended to what was written, that
/// is what a session on them writes and answers; and if only a prefix of it is, that is what a session writes whose
/// write failed.
pub fn what_is_said_is_sent()
    ensures whole { WrittenAnswersAreSent }
    ensures prefix { PrefixesAreSent }
{}

/// A law: the line of inputs that is reported is the first that isn't a line of inputs: one of another form, or what
/// follows the last line feed.
pub fn bad_line_is_the_first()
    ensures { BadLineIsTheFirst }
{}
