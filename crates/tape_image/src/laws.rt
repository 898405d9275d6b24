//! Laws of the definitions that the contracts cite. Each is a function that does nothing, with the
//! law as its contract.

ghost use Rattle.tape_image.specs.Laws.{SpellingsAreUnique, NoSpellingBeginsAnother};
ghost use Rattle.tape_image.specs.Laws.{SpellingOrStop, NeverBoth, OneStop, EndWordEnds};
ghost use Rattle.tape_image.specs.Laws.{BeginsIsUnique, BeginsExists, BeginsWithItems};
ghost use Rattle.tape_image.specs.Laws.{WalkedIsFront, SpelledBegins, BegunSpells};
ghost use Rattle.tape_image.specs.Calls.{GiveUpToEnd, GiveUpToFault};
ghost use Rattle.tape_image.specs.Writer.{WrittenSpells, FailedHoldsFront};
ghost use Rattle.tape_image.specs.FormatItems.{SimhImagesKeepItems};
ghost use Rattle.tape_image.specs.FormatLaws.{ItemsAreUnique, EncodingsAreUnique};
ghost use Rattle.tape_image.specs.FormatLaws.{NoEncodingBeginsAnother, SimhIsExtended};
ghost use Rattle.tape_image.specs.FormatLaws.{E11AndSimhAgree, E11AndSimhAreApart, EvenE11IsSimh};
ghost use Rattle.tape_image.specs.ResyncLaws.{NoneAtItems, NoneAtEnds, PlacesBeginItems};
ghost use Rattle.tape_image.specs.Examples.{ImagesAreHeld, AnswersAreHeld, TakingIsHeld};
ghost use Rattle.tape_image.specs.Examples.{LawsAreHeld, WritingIsHeld};

/// Bytes begin with at most one encoding, and no encoding is a proper prefix of another.
pub fn no_spelling_begins_another()
    ensures unique { SpellingsAreUnique }
    ensures prefix { NoSpellingBeginsAnother }
{}

/// At each offset of an image there is either an encoding that ends within the limit, or exactly
/// one reason to stop.
pub fn a_spelling_or_a_stop_stands()
    ensures some { SpellingOrStop }
    ensures apart { NeverBoth }
    ensures one { OneStop }
    ensures end_word { EndWordEnds }
{}

/// Any bytes begin with exactly one list of items, and stop at one offset for one reason.
pub fn bytes_begin_with_one_list_of_items()
    ensures unique { BeginsIsUnique }
    ensures exists { BeginsExists }
    ensures items { BeginsWithItems }
{}

/// Bytes that encode items up to the end of the medium, within the limit, begin with these items
/// and end there. Conversely, bytes that begin with items up to the end of the medium encode those
/// items.
pub fn spelled_bytes_begin_with_their_items()
    ensures begins { SpelledBegins }
    ensures spells { BegunSpells }
{}

/// However a device splits its bytes, the calls of `ImageReader::next` up to the end or a fault
/// return exactly the items with which the bytes begin.
pub fn calls_give_the_items_that_bytes_begin_with()
    ensures end { GiveUpToEnd }
    ensures fault { GiveUpToFault }
{}

/// The items read so far are a prefix of the items with which the bytes begin, and the remaining
/// bytes begin with the rest of these items.
pub fn walked_items_come_first()
    ensures { WalkedIsFront }
{}

/// The calls of `ImageWriter` up to `finish` write an encoding of the items: without gaps, with
/// zero pad bytes, and with nothing after the end-of-medium marker. If the device fails, it
/// contains a prefix of that encoding.
pub fn written_items_are_spelled()
    ensures spells { WrittenSpells }
    ensures front { FailedHoldsFront }
{}

/// The SIMH image of an image of another format spells the same items.
pub fn simh_images_keep_items()
    ensures { SimhImagesKeepItems }
{}

/// Over each format the items of an image are a function of its bytes: at each place the bytes begin
/// with at most one encoding, and no encoding is a proper prefix of another.
pub fn each_format_has_one_list_of_items()
    ensures items { ItemsAreUnique }
    ensures unique { EncodingsAreUnique }
    ensures prefix { NoEncodingBeginsAnother }
{}

/// Bytes that are an image in several of SIMH's format, the extended one and E11's have the same
/// items in each. An E11 image without blocks of odd length is a SIMH image.
pub fn simh_formats_agree()
    ensures extended { SimhIsExtended }
    ensures apart { E11AndSimhAreApart }
    ensures agree { E11AndSimhAgree }
    ensures even { EvenE11IsSimh }
{}

/// No place is sought where an item or an erase gap begins, nor where the medium ends: so none is
/// found in an image that can be read to its end. Each place that is found begins an item.
pub fn items_begin_again_after_wrong_words()
    ensures items { NoneAtItems }
    ensures ends { NoneAtEnds }
    ensures places { PlacesBeginItems }
{}

/// Test cases for the definitions: small images and results.
pub fn definitions_are_held_by_examples()
    ensures images { ImagesAreHeld }
    ensures answers { AnswersAreHeld }
    ensures taking { TakingIsHeld }
    ensures laws { LawsAreHeld }
    ensures writing { WritingIsHeld }
{}
