// The built-in names.
ghost use Rattle.std.specs.Prelude.{◌≡◌};
ghost use Rattle.standard.specs.Names.{table_of};
ghost use Rattle.standard.specs.NameList.{builtin};

// The 216 names as records, sorted by name.
static NAMES: [u8; 3101] = *b"\
    \x05AElig\xC6\0\0\0\0\0\0\0\x06AElig;\xC6\0\0\0\0\0\0\0\x03AMP&\0\0\0\0\0\0\0\x04AMP;&\0\0\0\0\0\0\0\
    \x06Aacute\xC1\0\0\0\0\0\0\0\x07Aacute;\xC1\0\0\0\0\0\0\0\x05Acirc\xC2\0\0\0\0\0\0\0\x06Acirc;\xC2\0\0\0\0\0\0\0\
    \x06Agrave\xC0\0\0\0\0\0\0\0\x07Agrave;\xC0\0\0\0\0\0\0\0\x05Aring\xC5\0\0\0\0\0\0\0\x06Aring;\xC5\0\0\0\0\0\0\0\
    \x06Atilde\xC3\0\0\0\0\0\0\0\x07Atilde;\xC3\0\0\0\0\0\0\0\x04Auml\xC4\0\0\0\0\0\0\0\x05Auml;\xC4\0\0\0\0\0\0\0\
    \x04COPY\xA9\0\0\0\0\0\0\0\x05COPY;\xA9\0\0\0\0\0\0\0\x06Ccedil\xC7\0\0\0\0\0\0\0\x07Ccedil;\xC7\0\0\0\0\0\0\0\
    \x03ETH\xD0\0\0\0\0\0\0\0\x04ETH;\xD0\0\0\0\0\0\0\0\x06Eacute\xC9\0\0\0\0\0\0\0\x07Eacute;\xC9\0\0\0\0\0\0\0\
    \x05Ecirc\xCA\0\0\0\0\0\0\0\x06Ecirc;\xCA\0\0\0\0\0\0\0\x06Egrave\xC8\0\0\0\0\0\0\0\x07Egrave;\xC8\0\0\0\0\0\0\0\
    \x04Euml\xCB\0\0\0\0\0\0\0\x05Euml;\xCB\0\0\0\0\0\0\0\x02GT>\0\0\0\0\0\0\0\x03GT;>\0\0\0\0\0\0\0\
    \x06Iacute\xCD\0\0\0\0\0\0\0\x07Iacute;\xCD\0\0\0\0\0\0\0\x05Icirc\xCE\0\0\0\0\0\0\0\x06Icirc;\xCE\0\0\0\0\0\0\0\
    \x06Igrave\xCC\0\0\0\0\0\0\0\x07Igrave;\xCC\0\0\0\0\0\0\0\x04Iuml\xCF\0\0\0\0\0\0\0\x05Iuml;\xCF\0\0\0\0\0\0\0\
    \x02LT<\0\0\0\0\0\0\0\x03LT;<\0\0\0\0\0\0\0\x06Ntilde\xD1\0\0\0\0\0\0\0\x07Ntilde;\xD1\0\0\0\0\0\0\0\
    \x06Oacute\xD3\0\0\0\0\0\0\0\x07Oacute;\xD3\0\0\0\0\0\0\0\x05Ocirc\xD4\0\0\0\0\0\0\0\x06Ocirc;\xD4\0\0\0\0\0\0\0\
    \x06Ograve\xD2\0\0\0\0\0\0\0\x07Ograve;\xD2\0\0\0\0\0\0\0\x06Oslash\xD8\0\0\0\0\0\0\0\x07Oslash;\xD8\0\0\0\0\0\0\0\
    \x06Otilde\xD5\0\0\0\0\0\0\0\x07Otilde;\xD5\0\0\0\0\0\0\0\x04Ouml\xD6\0\0\0\0\0\0\0\x05Ouml;\xD6\0\0\0\0\0\0\0\
    \x04QUOT\x22\0\0\0\0\0\0\0\x05QUOT;\x22\0\0\0\0\0\0\0\x03REG\xAE\0\0\0\0\0\0\0\x04REG;\xAE\0\0\0\0\0\0\0\
    \x05THORN\xDE\0\0\0\0\0\0\0\x06THORN;\xDE\0\0\0\0\0\0\0\x06Uacute\xDA\0\0\0\0\0\0\0\x07Uacute;\xDA\0\0\0\0\0\0\0\
    \x05Ucirc\xDB\0\0\0\0\0\0\0\x06Ucirc;\xDB\0\0\0\0\0\0\0\x06Ugrave\xD9\0\0\0\0\0\0\0\x07Ugrave;\xD9\0\0\0\0\0\0\0\
    \x04Uuml\xDC\0\0\0\0\0\0\0\x05Uuml;\xDC\0\0\0\0\0\0\0\x06Yacute\xDD\0\0\0\0\0\0\0\x07Yacute;\xDD\0\0\0\0\0\0\0\
    \x06aacute\xE1\0\0\0\0\0\0\0\x07aacute;\xE1\0\0\0\0\0\0\0\x05acirc\xE2\0\0\0\0\0\0\0\x06acirc;\xE2\0\0\0\0\0\0\0\
    \x05acute\xB4\0\0\0\0\0\0\0\x06acute;\xB4\0\0\0\0\0\0\0\x05aelig\xE6\0\0\0\0\0\0\0\x06aelig;\xE6\0\0\0\0\0\0\0\
    \x06agrave\xE0\0\0\0\0\0\0\0\x07agrave;\xE0\0\0\0\0\0\0\0\x03amp&\0\0\0\0\0\0\0\x04amp;&\0\0\0\0\0\0\0\
    \x05apos;'\0\0\0\0\0\0\0\x05aring\xE5\0\0\0\0\0\0\0\x06aring;\xE5\0\0\0\0\0\0\0\x06atilde\xE3\0\0\0\0\0\0\0\
    \x07atilde;\xE3\0\0\0\0\0\0\0\x04auml\xE4\0\0\0\0\0\0\0\x05auml;\xE4\0\0\0\0\0\0\0\x06brvbar\xA6\0\0\0\0\0\0\0\
    \x07brvbar;\xA6\0\0\0\0\0\0\0\x06ccedil\xE7\0\0\0\0\0\0\0\x07ccedil;\xE7\0\0\0\0\0\0\0\x05cedil\xB8\0\0\0\0\0\0\0\
    \x06cedil;\xB8\0\0\0\0\0\0\0\x04cent\xA2\0\0\0\0\0\0\0\x05cent;\xA2\0\0\0\0\0\0\0\x0Acenterdot;\xB7\0\0\0\0\0\0\0\
    \x04copy\xA9\0\0\0\0\0\0\0\x05copy;\xA9\0\0\0\0\0\0\0\x06curren\xA4\0\0\0\0\0\0\0\x07curren;\xA4\0\0\0\0\0\0\0\
    \x03deg\xB0\0\0\0\0\0\0\0\x04deg;\xB0\0\0\0\0\0\0\0\x06divide\xF7\0\0\0\0\0\0\0\x07divide;\xF7\0\0\0\0\0\0\0\
    \x06eacute\xE9\0\0\0\0\0\0\0\x07eacute;\xE9\0\0\0\0\0\0\0\x05ecirc\xEA\0\0\0\0\0\0\0\x06ecirc;\xEA\0\0\0\0\0\0\0\
    \x06egrave\xE8\0\0\0\0\0\0\0\x07egrave;\xE8\0\0\0\0\0\0\0\x03eth\xF0\0\0\0\0\0\0\0\x04eth;\xF0\0\0\0\0\0\0\0\
    \x04euml\xEB\0\0\0\0\0\0\0\x05euml;\xEB\0\0\0\0\0\0\0\x06fjlig;f\0\0\0j\0\0\0\x06frac12\xBD\0\0\0\0\0\0\0\
    \x07frac12;\xBD\0\0\0\0\0\0\0\x06frac14\xBC\0\0\0\0\0\0\0\x07frac14;\xBC\0\0\0\0\0\0\0\x06frac34\xBE\0\0\0\0\0\0\0\
    \x07frac34;\xBE\0\0\0\0\0\0\0\x02gt>\0\0\0\0\0\0\0\x03gt;>\0\0\0\0\0\0\0\x06iacute\xED\0\0\0\0\0\0\0\
    \x07iacute;\xED\0\0\0\0\0\0\0\x05icirc\xEE\0\0\0\0\0\0\0\x06icirc;\xEE\0\0\0\0\0\0\0\x05iexcl\xA1\0\0\0\0\0\0\0\
    \x06iexcl;\xA1\0\0\0\0\0\0\0\x06igrave\xEC\0\0\0\0\0\0\0\x07igrave;\xEC\0\0\0\0\0\0\0\x06iquest\xBF\0\0\0\0\0\0\0\
    \x07iquest;\xBF\0\0\0\0\0\0\0\x04iuml\xEF\0\0\0\0\0\0\0\x05iuml;\xEF\0\0\0\0\0\0\0\x05laquo\xAB\0\0\0\0\0\0\0\
    \x06laquo;\xAB\0\0\0\0\0\0\0\x02lt<\0\0\0\0\0\0\0\x03lt;<\0\0\0\0\0\0\0\x04macr\xAF\0\0\0\0\0\0\0\
    \x05macr;\xAF\0\0\0\0\0\0\0\x05micro\xB5\0\0\0\0\0\0\0\x06micro;\xB5\0\0\0\0\0\0\0\x06middot\xB7\0\0\0\0\0\0\0\
    \x07middot;\xB7\0\0\0\0\0\0\0\x04nbsp\xA0\0\0\0\0\0\0\0\x05nbsp;\xA0\0\0\0\0\0\0\0\x03not\xAC\0\0\0\0\0\0\0\
    \x04not;\xAC\0\0\0\0\0\0\0\x06notin;\x09\x22\0\0\0\0\0\0\x06ntilde\xF1\0\0\0\0\0\0\0\x07ntilde;\xF1\0\0\0\0\0\0\0\
    \x06oacute\xF3\0\0\0\0\0\0\0\x07oacute;\xF3\0\0\0\0\0\0\0\x05ocirc\xF4\0\0\0\0\0\0\0\x06ocirc;\xF4\0\0\0\0\0\0\0\
    \x06ograve\xF2\0\0\0\0\0\0\0\x07ograve;\xF2\0\0\0\0\0\0\0\x04ordf\xAA\0\0\0\0\0\0\0\x05ordf;\xAA\0\0\0\0\0\0\0\
    \x04ordm\xBA\0\0\0\0\0\0\0\x05ordm;\xBA\0\0\0\0\0\0\0\x06oslash\xF8\0\0\0\0\0\0\0\x07oslash;\xF8\0\0\0\0\0\0\0\
    \x06otilde\xF5\0\0\0\0\0\0\0\x07otilde;\xF5\0\0\0\0\0\0\0\x04ouml\xF6\0\0\0\0\0\0\0\x05ouml;\xF6\0\0\0\0\0\0\0\
    \x04para\xB6\0\0\0\0\0\0\0\x05para;\xB6\0\0\0\0\0\0\0\x06plusmn\xB1\0\0\0\0\0\0\0\x07plusmn;\xB1\0\0\0\0\0\0\0\
    \x05pound\xA3\0\0\0\0\0\0\0\x06pound;\xA3\0\0\0\0\0\0\0\x04quot\x22\0\0\0\0\0\0\0\x05quot;\x22\0\0\0\0\0\0\0\
    \x05raquo\xBB\0\0\0\0\0\0\0\x06raquo;\xBB\0\0\0\0\0\0\0\x03reg\xAE\0\0\0\0\0\0\0\x04reg;\xAE\0\0\0\0\0\0\0\
    \x04sect\xA7\0\0\0\0\0\0\0\x05sect;\xA7\0\0\0\0\0\0\0\x03shy\xAD\0\0\0\0\0\0\0\x04shy;\xAD\0\0\0\0\0\0\0\
    \x04sup1\xB9\0\0\0\0\0\0\0\x05sup1;\xB9\0\0\0\0\0\0\0\x04sup2\xB2\0\0\0\0\0\0\0\x05sup2;\xB2\0\0\0\0\0\0\0\
    \x04sup3\xB3\0\0\0\0\0\0\0\x05sup3;\xB3\0\0\0\0\0\0\0\x05szlig\xDF\0\0\0\0\0\0\0\x06szlig;\xDF\0\0\0\0\0\0\0\
    \x05thorn\xFE\0\0\0\0\0\0\0\x06thorn;\xFE\0\0\0\0\0\0\0\x05times\xD7\0\0\0\0\0\0\0\x06times;\xD7\0\0\0\0\0\0\0\
    \x06uacute\xFA\0\0\0\0\0\0\0\x07uacute;\xFA\0\0\0\0\0\0\0\x05ucirc\xFB\0\0\0\0\0\0\0\x06ucirc;\xFB\0\0\0\0\0\0\0\
    \x06ugrave\xF9\0\0\0\0\0\0\0\x07ugrave;\xF9\0\0\0\0\0\0\0\x03uml\xA8\0\0\0\0\0\0\0\x04uml;\xA8\0\0\0\0\0\0\0\
    \x04uuml\xFC\0\0\0\0\0\0\0\x05uuml;\xFC\0\0\0\0\0\0\0\x06yacute\xFD\0\0\0\0\0\0\0\x07yacute;\xFD\0\0\0\0\0\0\0\
    \x03yen\xA5\0\0\0\0\0\0\0\x04yen;\xA5\0\0\0\0\0\0\0\x04yuml\xFF\0\0\0\0\0\0\0\x05yuml;\xFF\0\0\0\0\0\0\0";

// The table of the built-in names.
pub fn builtin_names() -> [u8; 3101]
    ensures { result ≡ table_of builtin }
{
    NAMES
}

// The same as it lies in the program: whoever looks names up lends it to each lookup.
pub fn builtin_table() -> &'static [u8]
    ensures { result.now ≡ table_of builtin }
{
    &NAMES
}
