// The messages of the refusals of parsing and typing: each error of parser.rs and ir.rs.
#![tactic(auto)]

mod items;
mod part;
mod texts;
mod words;

ghost use Rattle.std.specs.Prelude.{◌≡◌, [], ◌≤◌, length};
ghost use Rattle.utils.specs.Bytes.{pad_to};
ghost use Rattle.utils.specs.Message.{reported};
ghost use Rattle.lexer.specs.Decoded.{tokens_of};
ghost use Rattle.utils.specs.Limits.{message_size};
ghost use Rattle.messages.specs.Messages.{ShortNames, fixed, message_of};

use parser::Refusal;
use part::Part;
use pieces::Location;

// The message of a refusal, and zeros after it. ITEM and TEXT are put apart from each other, and the message is made of
// them.
pub fn put_message(text: &[u8], tokens: &[u32], names: &[u32], e: Refusal, message: &mut [u8])
    requires { (message_size ≤ length message.old) × ShortNames text.now names.now }
    ensures { message.new ≡ pad_to (length message.old)
        (message_of text.now (tokens_of tokens.now) names.now e) }
{
    let t = lexer::token_at(tokens, e.token);
    let mut item = Part::new();
    items::put_item(&mut item, text, names, t, e);
    let mut said = Part::new();
    texts::put_text(&mut said, text, names, e);
    utils::report(message, t.line.0, item.as_slice(), said.as_slice());
}

// A refusal at no token: the message of its number, and zeros after it.
pub fn report(message: &mut [u8], line: Location, number: u32)
    requires { message_size ≤ length message.old }
    ensures { message.new
        ≡ pad_to (length message.old) (reported line.0 [] (fixed number)) }
{
    utils::error(message, line.0, texts::fixed(number));
}
