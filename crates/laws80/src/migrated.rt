//! What a session says of a regions text and of its migration to version 2. The law is ensured by a function that does nothing: a
//! layer above that calls it has the law in its proof.

ghost use Rattle.laws80.specs.Migrated.{MigratedTextsSayTheSame};

use image80::laws::text_of_regions_is_read_as_itself;

/// A session over an image, a regions text and inputs has the same answers, with the same
/// transcripts, as one over the same with the regions text migrated to version 2: so `run` and a
/// bundle print the same before `regions` and after it.
pub fn migrated_texts_say_the_same()
    ensures { MigratedTextsSayTheSame }
{
    text_of_regions_is_read_as_itself();
}
