//! The text on a topic. A topic is the number of a rule in decimal, or a word for a kind of refusal.

ghost use Rattle.std.specs.Prelude.{◌≡◌, is_some, map, option_map};
ghost use Rattle.std.specs.List.{find};
ghost use Rattle.std.specs.Str.{bytes_eq};
ghost use Rattle.explanations.specs.Entry.{entry_of, text_on, told};
ghost use Rattle.explanations.specs.Topics.{explanation_of, is_topic};

use crate::row::Row;
use crate::volumes::all_rows;

/// The row of a topic.
fn row_on(rows: &[Row], topic: &str) -> Option<Row>
    ensures { result ≡ find (λ row. bytes_eq row.0.now topic.now) rows.now }
{
    rows.iter().copied().find(|row| row.0 == topic)
}

/// The text that some rows have on a topic.
fn text_on(rows: &[Row], topic: &str) -> Option<&'static str>
    ensures { option_map (λ text. text.now) result ≡ text_on (map entry_of rows.now) topic.now }
{
    match row_on(rows, topic) {
        Some(row) => Some(row.2),
        None => None,
    }
}

/// The text that some tables have on a topic.
fn text_in(tables: &[&'static [Row]], topic: &str) -> Option<&'static str>
    ensures { option_map (λ text. text.now) result ≡ text_on (told tables.now) topic.now }
{
    for rows in tables {
        if let Some(text) = text_on(rows, topic) {
            return Some(text);
        }
    }
    None
}

/// The text on a topic: a title as the rule or the refusal is printed, what is asked, why, what mostly breaks it, and what to do. It
/// has lines of at most 78 columns, each with its line feed. A word that is no topic has none.
pub fn explanation(topic: &str) -> Option<&'static str>
    ensures { option_map (λ text. text.now) result ≡ explanation_of topic.now }
{
    text_in(&all_rows(), topic)
}

/// Whether a word is a topic, which has a text.
pub fn is_topic(word: &str) -> bool
    ensures { result ≡ is_topic word.now }
{
    explanation(word).is_some()
}
