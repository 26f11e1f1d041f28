//! The limits of a message. They are this project's profile: RFC 9112 (sections 3 and 5) and RFC
//! 9110 (section 2.3) leave the length of a head and of its fields to the recipient.

/// The bytes of the longest head, the empty lines before it and the one that ends it among them.
pub const HEAD_LIMIT: usize = 8192;

/// The fields of a head, at most.
pub const FIELD_LIMIT: usize = 32;

/// The bytes of the longest body.
pub const BODY_LIMIT: usize = 1024;

/// The bytes of the longest message.
pub const INBOX_ROOM: usize = HEAD_LIMIT + BODY_LIMIT;
