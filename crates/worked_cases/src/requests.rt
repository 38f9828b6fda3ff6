// Requests by what they flag: version 2, where 3 isn't said, and 0 for each argument that is not named.
use clock::Request;

pub fn set(synthetic: i64) -> Request {
    Request {
        synthetic,
        ..flagging(Request::SYNTHETIC)
    }
}

pub fn set_at(synthetic: i64, reference: i64) -> Request {
    Request {
        synthetic,
        reference,
        ..flagging(Request::SYNTHETIC | Request::REFERENCE)
    }
}

pub fn set_with_rate(synthetic: i64, rate: i32) -> Request {
    Request {
        synthetic,
        rate,
        ..flagging(Request::SYNTHETIC | Request::RATE)
    }
}

pub fn set_at_with_rate(synthetic: i64, reference: i64, rate: i32) -> Request {
    Request {
        synthetic,
        reference,
        rate,
        ..flagging(Request::SYNTHETIC | Request::REFERENCE | Request::RATE)
    }
}

pub fn rate(rate: i32) -> Request {
    Request {
        rate,
        ..flagging(Request::RATE)
    }
}

pub fn rate_at(rate: i32, reference: i64) -> Request {
    Request {
        reference,
        rate,
        ..flagging(Request::REFERENCE | Request::RATE)
    }
}

pub fn error(error: u64) -> Request {
    Request {
        error,
        ..flagging(Request::ERROR)
    }
}

pub fn error_at(error: u64, reference: i64) -> Request {
    Request {
        reference,
        error,
        ..flagging(Request::REFERENCE | Request::ERROR)
    }
}

// The same in version 3.
pub fn version_3(request: Request) -> Request {
    Request {
        word: request.word | Request::VERSION_3,
        ..request
    }
}

fn flagging(flags: u64) -> Request {
    Request {
        word: Request::VERSION_2 | flags,
        ..Request::default()
    }
}
