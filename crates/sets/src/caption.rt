// A caption of up to 1,024 bytes, kept in place.
use octets::Fixed;

pub type Caption = Fixed<1024>;
